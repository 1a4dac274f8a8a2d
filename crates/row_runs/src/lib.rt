//! The runs of rows: a row of a table is a page, the words of a run on it, and what must be told; a row of a
//! witness has the witness beside it.
//!
//! The crates of tests of whole runs stand on this crate, so that each table goes through one call and a run is
//! set up in one place. [`first_wrong`] and [`first_untrue`] make the page, hand it to `flash_top::run` between a
//! source and a sink in memory, and compare; [`run_between`] does so where these ends do little at a time, fail or
//! are full.
//!
//! No clause says what these give but their types: what a run means stands in the clauses of `flash_top`, and no
//! proof rests on a row. A helper that told a wrong row as right would be seen by none of its callers, so they are
//! few and short.
#![tactic(auto)]

mod running;

pub use running::{
    BLACK_AND_WHITE, CHECK, Ends, Page, Row, Told, Verified, WHOLE, bytes_of, first_untrue,
    first_wrong, is_told, run_between, run_on, words_of,
};
