// The tokens.
use page_model::Place;

/// The kind of a token of a page: HTML, as a profile.
#[derive(Clone, Copy, Debug, PartialEq, Eq)]
pub enum HtmlKind {
    /// `<!DOCTYPE html>`.
    Doctype,
    /// An opening tag with its attributes.
    Opening,
    /// A closing tag.
    Closing,
    /// The text of a `title` or a `style`.
    Raw,
}

/// A token of a page, and the bytes of the file that are its own.
#[derive(Clone, Copy, Debug, PartialEq, Eq)]
pub struct HtmlToken {
    pub kind: HtmlKind,
    pub place: Place,
}
