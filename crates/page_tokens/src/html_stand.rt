// What may stand at a place of a page.

/// What may stand at a place of a page.
#[derive(Clone, Copy, Debug, PartialEq, Eq)]
pub(crate) enum Stand {
    /// A token other than raw text, white space or a comment.
    Anything,
    /// The raw text of a `title`.
    TitleText,
    /// The raw text of a `style`.
    StyleText,
    /// The closing tag that ends raw text.
    ItsEnd,
}
