//! Selectors, and what a grammar of tokens is made of.
//!
//! The readers of style sheets stand on it. [`selectors_at`] reads the selectors of a rule at the front of some tokens,
//! and leaves the others: compound selectors with commas between, each of a type, ids and classes that directly follow
//! one another. Its clause says that what is given is a reading of the tokens, and that a fault is the first one.
//!
//! A reading says what some tokens begin with and what is left, or where they break off; it is put together of smaller
//! ones: one after another, many up to where they stop, things with commas between, things in braces. Keyframe sets and
//! whole sheets are put together of the same readings by those above; lemmas say of each of them that it leaves no more
//! than there was, that of all tokens it says something, and that it looks ahead by no more than one token.
#![tactic(auto)]

pub mod marks;
mod selectors;

pub use selectors::selectors_at;
