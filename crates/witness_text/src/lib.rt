//! The text of a witness, written and read: what a failing judgement prints, and what its checker is
//! given.
//!
//! A witness is written as the compact JSON text of one object, as `serde_json` writes a value. Its
//! keys stand in ascending order of bytes, and so do those of each part. Whoever prints a verdict
//! stands on this crate.
//!
//! The key clause is `to_text`'s `text`: the bytes are `witness_text` of the witness, which is the
//! compact text of `witness_value`, the table of the format as a function. `reads_back` adds that
//! `serde_json` reads that very object from these bytes, and `utf8` that they are text.
//!
//! `from_text` reads such a text, and each other JSON text of the same object: it looks at fixed
//! places, prints the witness that it found, and compares. Its clauses say which bytes are a text of
//! a witness (`IsTextOf`), that each of these is read and that all else is refused; the laws, that
//! what `to_text` wrote gives the witness back, with a newline at its end and without.
//!
//! It does not say that a witness is right: any witness has a text, with sizes, frames and tints as
//! they stand in it. Nothing is read but a witness in form: each tint's first colour is at most its
//! second one in each channel.
#![tactic(auto)]

mod digits;
mod fault;
mod laws;
mod look;
mod part;
mod reading;
mod text;
mod tint;

pub use fault::TextFault;
pub use laws::{one_witness_reading, read_again, read_line_again};
pub use reading::from_text;
pub use text::to_text;
