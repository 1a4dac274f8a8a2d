//! Rows of light: how light colours are, chains of tints and greatest areas, with the values that they must have.
//!
//! Nothing stands on this crate, and it has no function but tests. The clauses say that an answer is the
//! definition's; a row says that the definition gives what was meant. The rows come from outside, by an independent
//! reckoning. No page is read: tints, cells and edges are written down.
#![tactic(auto)]

#[cfg(test)]
mod areas;
#[cfg(test)]
mod chains;
#[cfg(test)]
mod light;
