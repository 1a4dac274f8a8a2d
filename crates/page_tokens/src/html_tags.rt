// Tags, with their content.
ghost use Rattle.std.specs.Prelude.{◌≡◌, IfOk};
ghost use Rattle.std.specs.Option.{option_map};
ghost use Rattle.page_tokens.specs.HtmlReading.{as_token, closing_at, end_at, end_tag_at, opening_at, raw_at, sign_at, tail_at};
ghost use Rattle.page_tokens.specs.HtmlShown.{content_now, end_now, tail_now};

use crate::html_attribute::{HtmlAttribute, attribute};
use crate::html_runs::{HtmlClass, after_byte, after_spaced_byte, name, run};
use crate::token::HtmlKind;
use page_model::NoMemory;
use std::alloc::Global;

/// What a token of a page says.
#[derive(Drop)]
pub struct HtmlContent<'a> {
    pub kind: HtmlKind,
    /// The name of a tag, or raw text; of a doctype nothing.
    pub name: &'a [u8],
    /// The attributes of an opening tag.
    pub attributes: Vec<HtmlAttribute<'a>>,
    /// Whether an opening tag ends with `/>`.
    pub slash: bool,
}

/// The attributes of an opening tag, whether it ends with `/>`, and the rest behind it.
#[derive(Drop)]
struct Tail<'a> {
    attributes: Vec<HtmlAttribute<'a>>,
    slash: bool,
    rest: &'a [u8],
}

/// Whether an opening tag ends here with `/>`, and the rest.
#[tactic(auto, unfolding(crate::specs::HtmlReading::sign_at))]
fn sign(bytes: &[u8]) -> Option<(bool, &[u8])>
    ensures { option_map end_now result ≡ sign_at bytes.now }
{
    let (first, after) = bytes.split_first()?;
    if *first == b'/' {
        Some((true, after_byte(b'>', after)?))
    } else if *first == b'>' {
        Some((false, after))
    } else {
        None
    }
}

/// The same behind white space.
#[tactic(auto, unfolding(crate::specs::HtmlReading::end_at))]
fn end(bytes: &[u8]) -> Option<(bool, &[u8])>
    ensures { option_map end_now result ≡ end_at bytes.now }
{
    sign(run(HtmlClass::White, bytes).1)
}

/// The attributes and the end of an opening tag.
#[tactic(auto, using(crate::proofs::HtmlTagLemmas::tail_step, crate::proofs::HtmlTagLemmas::tail_ends))]
fn attributes_and_end<'a>(alloc: Global, bytes: &'a [u8]) -> Result<Option<Tail<'a>>, NoMemory>
    ensures { IfOk result (λ found. option_map tail_now found ≡ tail_at bytes.now) }
{
    let mut attributes = Vec::new(alloc);
    let mut rest = bytes;
    'reading: while let Some((read, after)) = attribute(rest) {
        attributes.push(read)?;
        rest = after;
    }
    match end(rest) {
        Some((slash, rest)) => Ok(Some(Tail {
            attributes,
            slash,
            rest,
        })),
        None => Ok(None),
    }
}

/// The opening tag behind its `<`.
#[tactic(auto, unfolding(crate::specs::HtmlReading::opening_at))]
pub(crate) fn opening<'a>(
    alloc: Global,
    bytes: &'a [u8],
) -> Result<Option<(HtmlContent<'a>, &'a [u8])>, NoMemory>
    ensures { IfOk result (λ found. option_map content_now found ≡ opening_at bytes.now) }
{
    let Some((name, at_tail)) = name(HtmlClass::TagName, bytes) else {
        return Ok(None);
    };
    match attributes_and_end(alloc, at_tail)? {
        Some(
            Tail {
                attributes,
                slash,
                rest,
            },
        ) => {
            let content = HtmlContent {
                kind: HtmlKind::Opening,
                name,
                attributes,
                slash,
            };
            Ok(Some((content, rest)))
        }
        None => Ok(None),
    }
}

/// A token without attributes.
pub(crate) fn plain<'a>(alloc: Global, kind: HtmlKind, name: &'a [u8]) -> HtmlContent<'a>
    ensures kind { result.kind ≡ kind }
    ensures name { result.name.now ≡ name.entry.now }
{
    HtmlContent {
        kind,
        name,
        attributes: Vec::new(alloc),
        slash: false,
    }
}

/// The closing tag behind its `</`: its name and the rest.
#[tactic(auto, unfolding(crate::specs::HtmlReading::closing_at))]
pub(crate) fn closing<'a>(alloc: Global, bytes: &'a [u8]) -> Option<(HtmlContent<'a>, &'a [u8])>
    ensures { option_map content_now result ≡ closing_at bytes.now }
{
    let (name, after) = name(HtmlClass::TagName, bytes)?;
    let rest = after_spaced_byte(b'>', after)?;
    Some((plain(alloc, HtmlKind::Closing, name), rest))
}
