//! The words of a command line, and the command that they spell.
//!
//! [`command`] is what the top asks first. Its key clause names words and command alone: it is `Ok` exactly where the words spell a
//! command, with that command, and words spell one command at most. It takes no memory.
//!
//! `Words` in `specs/` is the table of the commands as a relation, with the places of the words that name files. What a command comes
//! to is the top's to say: nothing is opened here, and any word may be the name of a file. Numbers are read as they are written, with
//! no sign and no leading zero, by `numerals`; a colour is six hexadecimal digits, as `Colours` in `specs/` has them, read by `colours`.
#![tactic(auto)]

mod colours;
mod numerals;
mod reading;
mod words;

pub use reading::command;
pub use words::{Command, WordsFault};
