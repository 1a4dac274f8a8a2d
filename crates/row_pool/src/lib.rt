//! Rows of words that are lent out by number, from memory that is taken once.
//!
//! Whoever keeps a row of numbers for each of many things, and must not run out of memory once the work has
//! begun, opens a [`Pool`] with as many rows as can be needed, takes a row for each thing, writes it through
//! [`Pool::row_mut`], and gives it back. The key clauses: [`Pool::take`] hands out the least free number, and a
//! write to one row leaves all others. A contract sees a pool as a list of rows, which are all zeros from the
//! start, and a set of free numbers. No call but [`Pool::open`] takes memory, as the signatures say.
//!
//! A row is written when it is first taken, so rows that are never taken cost neither time nor resident memory.
//! What the words of a row mean is not said here. A row that is given back keeps its words: who takes it again
//! begins it anew.
#![tactic(auto)]

mod numbers;
mod pool;

pub use pool::{Pool, RowId};
