//! Rows of meaning: fractions, intervals, easings, states of layers and pixels, with the values that they must have.
//!
//! Nothing stands on this crate, and it has no function but tests. The clauses say that a value is the
//! definition's; a row says that the definition gives what was meant. The rows come from outside, by an
//! independent reckoning. Scenes are those of sample pages, and each table goes through one call.
#![tactic(auto)]

#[cfg(test)]
mod easings;
#[cfg(test)]
mod fractions;
#[cfg(test)]
mod intervals;
#[cfg(test)]
mod pixels;
#[cfg(test)]
mod states;
