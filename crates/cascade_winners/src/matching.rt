// Which elements a compound selector matches: Selectors, compound selectors of a type, ids and classes.
ghost use Rattle.std.specs.Prelude.{◌≡◌, ◌&&◌, [], is_some, unwrap_or};
ghost use Rattle.std.specs.List.{list_all};
ghost use Rattle.std.specs.Str.{bytes_eq};
ghost use Rattle.page_model.specs.Cascade as definition;

use page_model::{Compound, Element, Name, Tag};

// The name of a tag, in lower case.
fn tag_name(tag: Tag) -> &'static [u8]
    ensures { result.now ≡ definition.tag_name tag }
{
    match tag {
        Tag::Body => b"body",
        Tag::Div => b"div",
        Tag::Span => b"span",
    }
}

fn matches_tag(name: &Option<Name>, tag: Tag) -> bool
    ensures { result ≡ definition.matches_tag name.now tag }
{
    match name {
        Some(name) => name.bytes().eq_ignore_ascii_case(tag_name(tag)),
        None => true,
    }
}

// Whether an id is an element's own.
fn is_own(id: &Name, own: &Option<Name>) -> bool
    ensures { result ≡ (is_some own.now && bytes_eq id.now (unwrap_or own.now [])) }
{
    match own {
        Some(own) => id.bytes() == own.bytes(),
        None => false,
    }
}

fn matches_ids(ids: &[Name], own: &Option<Name>) -> bool
    ensures { result ≡ definition.matches_ids ids.now own.now }
{
    ids.iter().all(|id| is_own(id, own))
}

fn is_among(names: &[Name], name: &Name) -> bool
    ensures { result ≡ definition.is_among names.now name.now }
{
    names.iter().any(|other| name.bytes() == other.bytes())
}

fn matches_classes(classes: &[Name], own: &[Name]) -> bool
    ensures { result ≡ list_all (definition.is_among own.now) classes.now }
{
    classes.iter().all(|class| is_among(own, class))
}

/// Whether a selector matches an element: its tag without regard to case, each id and each class exactly.
pub fn matches(selector: &Compound, element: &Element) -> bool
    ensures { result ≡ definition.matches selector.now element.now }
{
    if !matches_tag(&selector.tag, element.tag) {
        return false;
    }
    if !matches_ids(selector.ids.as_slice(), &element.id) {
        return false;
    }
    matches_classes(selector.classes.as_slice(), element.classes.as_slice())
}
