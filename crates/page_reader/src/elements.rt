// The elements of a page.
ghost use Rattle.std.specs.Prelude.{◌≡◌, ◌≤◌, ◌-◌, IfOk, find, length, map};
ghost use Rattle.std.specs.List.{slice_split};
ghost use Rattle.std.specs.Option.{option_map};
ghost use Rattle.text_tokens.specs.Classes.{is_white};
ghost use Rattle.page_tokens.specs.HtmlShown.{shown_attribute, shown_word};
ghost use Rattle.page_reader.specs.PageElements.{classes_in, element_of, element_tag, element_with, runs_in, style_in, value_of};
ghost use Rattle.page_reader.specs.PageSymbols.{is_named, symbol_of};

use crate::attributes::is_named;
use crate::stage::NOWHERE;
use crate::symbol::{BoxTag, Symbol};
use page_model::{Element, List, Name, NoMemory, Place, Tag};
use page_tokens::{HtmlAttribute, HtmlWord};
use std::alloc::{AllocError, Global};

/// White space: space, tab, line feed, form feed or carriage return.
fn is_white(byte: u8) -> bool
    ensures { result ≡ is_white byte }
{
    byte == b' ' || byte == b'\t' || byte == b'\n' || byte == 12 || byte == b'\r'
}

/// The first of the attributes that has this name, in any case.
fn find_named<'a>(name: &[u8], attributes: &[HtmlAttribute<'a>]) -> Option<HtmlAttribute<'a>>
    ensures { option_map shown_attribute result ≡ find (is_named name.now) (map shown_attribute attributes.now) }
{
    'seeking: for attribute in attributes {
        if is_named(name, attribute) {
            return Some(*attribute);
        }
    }
    None
}

/// The pieces of a value between bytes of white space, empty ones too.
fn pieces_in<'a>(alloc: Global, value: &'a [u8]) -> Result<Vec<&'a [u8]>, AllocError>
    ensures { IfOk result (λ pieces. map (λ piece. piece.now) pieces.items ≡ slice_split is_white value.entry.now) }
{
    value.split(|byte| is_white(*byte)).collect(alloc)
}

/// The runs of bytes of a value between white space.
fn runs_in(alloc: Global, value: &[u8]) -> Result<List<Name>, NoMemory>
    ensures { IfOk result (λ runs. runs ≡ runs_in value.now) }
{
    let pieces = pieces_in(alloc, value)?;
    let mut runs = List::new(alloc);
    'naming: for piece in &pieces {
        if !piece.is_empty() {
            runs.push(Name::new(alloc, piece)?)?;
        }
    }
    Ok(runs)
}

/// The classes of a `class` attribute, if there is one.
fn classes_in(alloc: Global, attribute: Option<HtmlAttribute<'_>>) -> Result<List<Name>, NoMemory>
    ensures { IfOk result (λ classes. classes ≡ classes_in (option_map shown_attribute attribute.entry)) }
{
    match attribute {
        Some(attribute) => runs_in(alloc, attribute.value),
        None => Ok(List::new(alloc)),
    }
}

/// The id of an `id` attribute, if there is one.
fn id_in(alloc: Global, attribute: Option<HtmlAttribute<'_>>) -> Result<Option<Name>, NoMemory>
    ensures { IfOk result (λ id. id ≡ option_map value_of (option_map shown_attribute attribute.entry)) }
{
    match attribute {
        Some(attribute) => {
            let name = Name::new(alloc, attribute.value)?;
            Ok(Some(name))
        }
        None => Ok(None),
    }
}

/// The place in a text of `total` bytes before which `left` of them are left.
fn place_before(total: usize, left: usize) -> u32
    requires { total ≤ 1048576 }
    ensures { result ≡ total - left }
{
    total.saturating_sub(left) as u32
}

/// The place of the value of a `style` attribute in a text of `total` bytes, if there is one.
fn style_in(total: usize, attribute: Option<HtmlAttribute<'_>>) -> Place
    requires { total ≤ 1048576 }
    ensures { result ≡ style_in total (option_map shown_attribute attribute.entry) }
{
    match attribute {
        Some(attribute) => {
            let from = place_before(total, attribute.left);
            let to = place_before(total, attribute.left.saturating_sub(attribute.value.len()));
            Place { from, to }
        }
        None => NOWHERE,
    }
}

/// The element of these attributes.
fn element_with(
    alloc: Global,
    total: usize,
    tag: Tag,
    attributes: &[HtmlAttribute<'_>],
) -> Result<Element, NoMemory>
    requires { total ≤ 1048576 }
    ensures { IfOk result (λ element. element ≡ element_with total tag (map shown_attribute attributes.now)) }
{
    let id = id_in(alloc, find_named(b"id", attributes))?;
    let classes = classes_in(alloc, find_named(b"class", attributes))?;
    let style = style_in(total, find_named(b"style", attributes));
    Ok(Element {
        tag,
        id,
        classes,
        style,
    })
}

/// The tag of the element that a token opens, if it does.
fn element_tag(symbol: Symbol) -> Option<Tag>
    ensures { result ≡ element_tag symbol }
{
    match symbol {
        Symbol::OpenBody => Some(Tag::Body),
        Symbol::OpenBox(BoxTag::Div) => Some(Tag::Div),
        Symbol::OpenBox(BoxTag::Span) => Some(Tag::Span),
        _ => None,
    }
}

/// The element that a token opens, if it does; the symbol is the token's.
#[tactic(auto, using(crate::proofs::ElementLemmas::attributes_shown))]
pub(crate) fn element_of(
    alloc: Global,
    total: usize,
    symbol: Symbol,
    word: &HtmlWord<'_>,
) -> Result<Option<Element>, NoMemory>
    requires size { total ≤ 1048576 }
    requires symbol { symbol ≡ symbol_of (shown_word word.now) }
    ensures { IfOk result (λ element. element ≡ element_of total (shown_word word.now)) }
{
    match element_tag(symbol) {
        Some(tag) => {
            let element = element_with(alloc, total, tag, word.content.attributes.as_slice())?;
            Ok(Some(element))
        }
        None => Ok(None),
    }
}
