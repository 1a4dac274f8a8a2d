// The names of the tags of a page.
ghost use Rattle.std.specs.Prelude.{◌≡◌};
ghost use Rattle.page_reader.specs.PageSymbols.{tag_named};

use page_tokens::is_word;

/// The tags that a page may have.
#[derive(Clone, Copy, Debug)]
pub(crate) enum TagName {
    Html,
    Head,
    Meta,
    Title,
    Style,
    Body,
    DivBox,
    SpanBox,
    Unknown,
}

/// The tag of this name, in any case.
pub(crate) fn tag_named(name: &[u8]) -> TagName
    ensures { result ≡ tag_named name.now }
{
    if is_word(name, b"html") {
        return TagName::Html;
    }
    if is_word(name, b"head") {
        return TagName::Head;
    }
    if is_word(name, b"meta") {
        return TagName::Meta;
    }
    if is_word(name, b"title") {
        return TagName::Title;
    }
    if is_word(name, b"style") {
        return TagName::Style;
    }
    if is_word(name, b"body") {
        return TagName::Body;
    }
    if is_word(name, b"div") {
        return TagName::DivBox;
    }
    if is_word(name, b"span") {
        return TagName::SpanBox;
    }
    TagName::Unknown
}
