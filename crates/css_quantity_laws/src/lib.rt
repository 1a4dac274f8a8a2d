//! Numbers with their units, spelled from their parts, and that they are read so.
//!
//! `css_quantities` reads lengths, times, percentages and plain numbers. This crate gives their grammar once more as
//! relations without state, each a measure with its unit, its decimals and its limit (`specs/SpelledQuantities.antt`).
//! Each public function here has no parameters and an empty body, and its clauses are laws: a reading gives a value
//! exactly where the words spell it, is past a limit exactly where they spell one past it, and gives neither exactly
//! where they spell none. So words spell one value at most. `css_value_laws` has the lists of such numbers above it.
//!
//! What a number means for a page is not said here.
#![tactic(auto)]

mod quantities;

pub use quantities::{
    lengths_are_spelled, nothing_is_spelled, plain_numbers_are_spelled, times_are_spelled,
};
