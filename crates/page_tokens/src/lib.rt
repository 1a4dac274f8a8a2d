//! Tokens of a page, with their places in the file.
//!
//! [`scan_html`] splits a page into tokens, between which only white space and comments stand. Its clauses say that
//! what is given is so spelled, and that a fault is told exactly at the first place where nothing begins. Each piece
//! is a relation between the bytes, its content and what is left behind it, so that the reader of pages, which stands
//! on these tokens, shares the one grammar: [`scan_words`] gives the tokens with their names and attributes. Every text
//! has tokens or a place of a fault ([`every_text_is_scanned`]), and never two answers ([`one_html_reading`]).
//!
//! Which tokens may follow one another is not said here, but for raw text, which stands right behind an opening
//! `title` or `style` and right before a closing tag.
#![tactic(auto)]

mod html_attribute;
mod html_laws;
mod html_pieces;
mod html_runs;
mod html_scan;
mod html_stand;
mod html_tags;
mod token;

pub use html_attribute::HtmlAttribute;
pub use html_laws::{every_text_is_scanned, one_html_reading};
pub use html_pieces::is_word;
pub use html_scan::{HtmlWord, scan_html, scan_words};
pub use html_tags::HtmlContent;
pub use text_tokens::ScanFault;
pub use token::{HtmlKind, HtmlToken};
