// What attributes a tag may have.
ghost use Rattle.std.specs.Prelude.{◌≡◌, IfOk, map};
ghost use Rattle.std.specs.List.{list_all};
ghost use Rattle.page_tokens.specs.HtmlShown.{shown_attribute};
ghost use Rattle.page_reader.specs.PageSymbols.{are_box_attributes, are_html_attributes, are_meta_attributes, begins_with, is_box_attribute, is_named, names_viewport};

use crate::distinct::are_distinct;
use page_model::NoMemory;
use page_tokens::{HtmlAttribute, is_word};
use std::alloc::Global;

/// Whether the attribute has this name, in any case.
pub(crate) fn is_named(name: &[u8], attribute: &HtmlAttribute<'_>) -> bool
    ensures { result ≡ is_named name.now (shown_attribute attribute.now) }
{
    is_word(attribute.name, name)
}

/// Whether the attribute's name begins so, in any case.
#[tactic(auto, using(crate::proofs::AttributeLemmas::take_whole))]
fn begins_with(front: &[u8], attribute: &HtmlAttribute<'_>) -> bool
    ensures { result ≡ begins_with front.now (shown_attribute attribute.now) }
{
    let name = attribute.name;
    if name.len() < front.len() {
        is_word(name, front)
    } else {
        is_word(&name[..front.len()], front)
    }
}

/// Whether a box may have the attribute.
fn is_box_attribute(attribute: &HtmlAttribute<'_>) -> bool
    ensures { result ≡ is_box_attribute (shown_attribute attribute.now) }
{
    if is_named(b"id", attribute) {
        return true;
    }
    if is_named(b"class", attribute) {
        return true;
    }
    if is_named(b"style", attribute) {
        return true;
    }
    if begins_with(b"data-", attribute) {
        return true;
    }
    begins_with(b"aria-", attribute)
}

/// Whether a box may have each of the attributes.
fn are_all_of_boxes(attributes: &[HtmlAttribute<'_>]) -> bool
    ensures { result ≡ list_all is_box_attribute (map shown_attribute attributes.now) }
{
    'testing: for attribute in attributes {
        if !is_box_attribute(attribute) {
            return false;
        }
    }
    true
}

/// Whether a box may have these attributes.
pub(crate) fn are_box_attributes(
    alloc: Global,
    attributes: &[HtmlAttribute<'_>],
) -> Result<bool, NoMemory>
    ensures { IfOk result (λ may. may ≡ are_box_attributes (map shown_attribute attributes.now)) }
{
    if !are_all_of_boxes(attributes) {
        return Ok(false);
    }
    are_distinct(alloc, attributes)
}

/// Whether an `html` may have these attributes.
pub(crate) fn are_html_attributes(attributes: &[HtmlAttribute<'_>]) -> bool
    ensures { result ≡ are_html_attributes (map shown_attribute attributes.now) }
{
    match attributes {
        [] => true,
        [attribute] => is_named(b"lang", attribute),
        _ => false,
    }
}

/// Whether these are the name of a viewport and its content.
fn names_viewport(name: &HtmlAttribute<'_>, content: &HtmlAttribute<'_>) -> bool
    ensures { result ≡ names_viewport (shown_attribute name.now) (shown_attribute content.now) }
{
    if !is_named(b"name", name) {
        return false;
    }
    if name.value != b"viewport".as_slice() {
        return false;
    }
    is_named(b"content", content)
}

/// Whether a `meta` may have these attributes.
pub(crate) fn are_meta_attributes(attributes: &[HtmlAttribute<'_>]) -> bool
    ensures { result ≡ are_meta_attributes (map shown_attribute attributes.now) }
{
    match attributes {
        [attribute] => {
            if !is_named(b"charset", attribute) {
                return false;
            }
            is_word(attribute.value, b"utf-8")
        }
        [attribute, another] => {
            if names_viewport(attribute, another) {
                return true;
            }
            names_viewport(another, attribute)
        }
        _ => false,
    }
}
