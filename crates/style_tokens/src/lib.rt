//! Tokens of style text, with their places in the file.
//!
//! [`scan_css`] splits a part of a file into tokens, between which only white space and comments stand. Its clauses
//! say that what is given is so spelled, that what is so spelled is given, and that a fault is told exactly at the
//! first place where nothing begins; [`every_style_text_is_scanned`], that every text has tokens or such a place. Of
//! the tokens that may begin at a place the longest is taken. Each token is a relation between its bytes and what is
//! left behind it (`specs/CssGrammar.antt`), so that the readers of values, of declarations and of sheets, which stand
//! on these tokens, share the one grammar.
//!
//! Which tokens may follow one another is not said here.
#![tactic(auto)]

mod css;
mod css_reading;
mod laws;
mod token;

pub use css::scan_css;
pub use laws::every_style_text_is_scanned;
pub use text_tokens::ScanFault;
pub use token::{CssKind, CssToken};
