//! Rows of what ends runs: animations that never end, the last value that a limit allows and the first that it
//! doesn't, pages that are cut short, and sources and sinks that do little at a time, fail or are full.
//!
//! Nothing stands on this crate, and it has no function but tests. As in `worked_rows`, each row has the status and
//! the text that a whole run must have, by an independent reading of the definitions. Where an end fails, the clauses
//! of a run say what it may tell; the tests try each call that may fail, and say that no other run is told so.
#![tactic(auto)]

#[cfg(test)]
mod edge;
#[cfg(test)]
mod endless;
#[cfg(test)]
mod ends;
#[cfg(test)]
mod fronts;
#[cfg(test)]
mod limits;
#[cfg(test)]
mod tables;
