//! Colours, spelled from their parts, and that they are read so.
//!
//! `css_colours` reads colours. This crate gives their grammar once more as relations without state: a mark and three,
//! four, six or eight hexadecimal digits, a name of the table, or `rgb(` or `rgba(`, three whole numbers and an alpha or
//! none with commas between, and `)` (`specs/SpelledColours.antt`). Its law, [`colours_are_spelled`], says that a colour
//! is given exactly where the words spell it, and none exactly where they spell none; so words spell one colour at most.
//!
//! The mark before a colour's digits, and the bytes of commas and parentheses, are those of their tokens' kinds and
//! aren't looked at.
#![tactic(auto)]

mod colours;

pub use colours::colours_are_spelled;
