//! Witnesses, as they are told and tested: the text of a witness, and its checker.
//!
//! Whoever prints a verdict, or is handed one, needs this crate alone. [`to_text`] writes a witness and [`from_text`] reads one back;
//! [`accepts`] tests it against a page, condition by condition and pixel by pixel. The three stand in crates of their own,
//! `witness_text` and `witness_checks`, which know nothing of each other, and neither stands on the judge: nothing here knows of
//! cells or sweeps. The key clause is `accepts`'s: Ok comes exactly where all nine conditions hold, and then the window is bad.
#![tactic(auto)]

pub use witness_checks::{WitnessFault, accepts};
pub use witness_text::{
    TextFault, from_text, one_witness_reading, read_again, read_line_again, to_text,
};
