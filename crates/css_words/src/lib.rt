//! The words of a value, and the numbers in them.
//!
//! The tokens of a value are words: kinds with their bytes. A call here reads one thing at the front of them, or all of
//! them where they are one thing alone: an identifier, a hash, a number, a function's name, a comma. A number is read in
//! its parts ([`number_at`], [`lone_number`]) and then as so many tenths, hundredths or thousandths ([`amount`]), so
//! that nothing is ever rounded; keywords are compared without regard to case. `css_quantities`, `css_colours`,
//! `css_easings` and `css_items` stand on it side by side, and its [`ValueFault`] is why tokens give no value.
//!
//! Its key clause is that of each reader: what it gives is what the words spell, by the function of the same name in
//! `specs/`. Which values there are, and their limits, is not said here.
#![tactic(auto)]

mod digits;
mod fault;
mod keywords;
mod numeral;
mod word;

pub use digits::digit_value;
pub use fault::ValueFault;
pub use keywords::{Keyword, find, is_keyword};
pub use numeral::{Number, amount, is_zero, lone_number, number_at, share_at, share_of, whole_at};
pub use word::{
    behind_close, behind_comma, ended, function_at, ident_at, is_lone, lone_hash, lone_ident,
};
