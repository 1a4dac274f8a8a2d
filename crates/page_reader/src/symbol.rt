// What the tokens of a page stand for.
use page_model::Place;

/// The tag of a box.
#[derive(Clone, Copy, Debug, PartialEq, Eq)]
pub(crate) enum BoxTag {
    Div,
    Span,
}

/// What a token of a page stands for in its grammar.
#[derive(Clone, Copy, Debug)]
pub(crate) enum Symbol {
    Doctype,
    OpenHtml,
    OpenHead,
    OpenMeta,
    OpenTitle,
    OpenStyle,
    /// Raw text, and where it stands.
    RawText(Place),
    OpenBody,
    OpenBox(BoxTag),
    CloseHtml,
    CloseHead,
    CloseTitle,
    CloseStyle,
    CloseBody,
    CloseBox(BoxTag),
    /// A token that stands in no page.
    Other,
}
