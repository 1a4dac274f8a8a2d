//! Eight bytes of a word, and eight small numbers side by side in lanes.
//!
//! Who keeps eight numbers of a byte in one word reads and writes them by `bytes_of` and `word_of`; who looks for the
//! least of many such words makes lanes of them by [`Numbers`], where the eight numbers of a word are made greater by an
//! age, and the lesser of each two is taken, by a dozen operations on words in place of eight times as many on bytes.
//! The key clauses: each lane is what the same operation gives for its number alone. It doesn't say what the numbers are.
#![tactic(auto)]

mod bytes;
mod lanes;

pub use bytes::{bytes_of, word_of};
pub use lanes::Numbers;
