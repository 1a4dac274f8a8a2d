//! The words and numbers of style text, spelled from their parts, and that they are read so.
//!
//! `css_words` says what its calls give by functions that read words from left to right. This crate gives the grammar of
//! words and numbers once more, as relations that put bytes together and have no state: a number is a sign, digits, a
//! point, digits and a unit; a word of a table is one of its entries. `specs/ValueLaws.antt` says what it means that a
//! reading agrees with such a grammar: it gives a value exactly where the words spell it, is past a limit exactly where
//! they spell one past it, and gives neither exactly where they spell none. The crates of laws on numbers with units, on
//! colours, on easings and on lists stand on it side by side, with its lemmas on words, numbers and what stands in front.
//!
//! Its own law is that of whole numbers. Which values there are is not said here.
#![tactic(auto)]

mod words;

pub use words::whole_numbers_are_spelled;
