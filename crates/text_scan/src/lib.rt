//! The tokens of a page and of its style text, side by side.
//!
//! It has nothing of its own: [`scan_html`] and [`scan_words`] are those of `page_tokens`, and [`scan_css`] is that of
//! `style_tokens`, with their clauses, whose words `specs/` hands on. Who reads only pages, or only style text, stands
//! on the one of the two alone; this crate is for those that split files of both kinds.
#![tactic(auto)]

pub use page_tokens::{
    HtmlAttribute, HtmlContent, HtmlKind, HtmlToken, HtmlWord, is_word, one_html_reading,
    scan_html, scan_words,
};
pub use style_tokens::{CssKind, CssToken, scan_css};
pub use text_tokens::ScanFault;
