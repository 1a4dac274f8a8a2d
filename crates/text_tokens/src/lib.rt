//! What the tokens of pages and those of style texts have in common.
//!
//! [`ScanFault`] is why a text can't be split into tokens, and where; the calls below it say of which bytes words are
//! made: white space, letters, digits, and what an identifier begins with and goes on with. `page_tokens` and
//! `style_tokens` stand on it side by side, each with the grammar of its own tokens. The key clause is that of each
//! class: a byte belongs to it exactly where `specs/Classes.antt` says so.
//!
//! Which tokens there are, and where a fault is told, is not said here.
#![tactic(auto)]

mod classes;
mod fault;

pub use classes::{is_digit, is_letter, is_name_byte, is_name_start, is_white};
pub use fault::ScanFault;
