//! Easings, spelled from their parts, and that they are read so.
//!
//! `css_easings` reads easings. This crate gives their grammar once more as relations without state: a word of the
//! table, `steps(` with a whole number and where they jump, or `cubic-bezier(` with four numbers in thousandths
//! (`specs/SpelledEasings.antt`). Its law, [`easings_are_spelled`], says that an easing is given exactly where the words
//! spell it, past its limit exactly where they spell one past it, and neither exactly where they spell none; so words
//! spell one easing at most.
//!
//! The bytes of commas and parentheses are those of their tokens' kinds and aren't looked at.
#![tactic(auto)]

mod easings;

pub use easings::easings_are_spelled;
