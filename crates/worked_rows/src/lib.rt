//! Worked rows: whole runs of flash, from words and bytes to text and status, with the values that they
//! must have. They come from outside, by an independent reading of the definitions.
//!
//! Nothing stands on this crate, and it has no function but tests. A clause says what a run means; a row
//! says that what was meant is what was written down, and that memory isn't refused where there is enough
//! of it. Rows are tables, named by what they show; all that are of one page go through one call, so that few
//! goals have to be proved. Rows of rhythms, limits and failing ends stand in `ending_rows`.
#![tactic(auto)]

#[cfg(test)]
mod alpha;
#[cfg(test)]
mod boxes;
#[cfg(test)]
mod lamps;
#[cfg(test)]
mod pages;
#[cfg(test)]
mod rates;
#[cfg(test)]
mod red;
#[cfg(test)]
mod sheets;
#[cfg(test)]
mod shown;
#[cfg(test)]
mod tables;
#[cfg(test)]
mod tints;
#[cfg(test)]
mod witnesses;
