//! Rows of witnesses: what pages come to, the conditions of a lamp's witness, and texts of witnesses, with the values
//! that they must have.
//!
//! Nothing stands on this crate, and it has no function but tests. The clauses say that an answer is the
//! definition's; a row says that the definition gives what was meant, and that memory isn't refused where there
//! is enough of it. The rows come from outside, by an independent reckoning and from another writer and reader
//! of JSON.
#![tactic(auto)]

#[cfg(test)]
mod conditions;
#[cfg(test)]
mod judgements;
#[cfg(test)]
mod texts;
