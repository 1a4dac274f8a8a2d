//! Rows of regions: the edges of boxes that move, settled frames and periods, and the parts of scenes whose boxes
//! repeat separately, with the values that they must have.
//!
//! Nothing stands on this crate, and it has no function but tests. The clauses say that an answer is the
//! definition's; a row says that the definition gives what was meant, and that memory isn't refused where there
//! is enough of it. The rows come from outside, by an independent reckoning. Scenes are those of sample pages, and
//! each table goes through one call.
#![tactic(auto)]

#[cfg(test)]
mod horizons;
#[cfg(test)]
mod moves;
#[cfg(test)]
mod parts;
