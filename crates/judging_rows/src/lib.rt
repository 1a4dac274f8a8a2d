//! Rows of judging: cells, their edges and tints, and verdicts, with the values that they must have.
//!
//! Nothing stands on this crate, and it has no function but tests. The clauses say that an answer is the
//! definition's; a row says that the definition gives what was meant, and that memory isn't refused where there
//! is enough of it. The rows come from outside, by an independent reckoning. Scenes are those of sample pages, and
//! each table goes through one call. What is known before a scene is swept has its rows in `region_rows`.
#![tactic(auto)]

#[cfg(test)]
mod cells;
#[cfg(test)]
mod opening;
#[cfg(test)]
mod rates;
#[cfg(test)]
mod verdicts;
