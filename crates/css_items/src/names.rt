// Items that are one word.
ghost use Rattle.std.specs.Prelude.{◌≡◌, IfErr, IfOk, option_copied};
ghost use Rattle.css_words.specs.declared.fault.ValueFault.TheVariants.{NoMemory as Refused};
ghost use Rattle.css_items.specs.ItemWords.{direction_words, fill_words, play_words, visibility_words};
ghost use Rattle.css_items.specs.Names.{keyword_of, name_of, named};
ghost use Rattle.css_words.specs.Words.{mapped, words};

use crate::tables::{direction_named, fill_named, play_named, reserved, visibility_named};
use css_words::{ValueFault, is_keyword, lone_ident};
use page_model::{Direction, Fill, Name};
use std::alloc::Global;
use style_tokens::CssToken;

/// A direction.
#[tactic(auto, unfolding(crate::specs::Names::keyword_of))]
pub fn direction(text: &[u8], tokens: &[CssToken]) -> Result<Direction, ValueFault>
    ensures { result ≡ keyword_of direction_words (words text.now tokens.now) }
{
    let Some(bytes) = lone_ident(text, tokens) else {
        return Err(ValueFault::BadValue);
    };
    match direction_named(bytes) {
        Some(direction) => Ok(direction),
        None => Err(ValueFault::BadValue),
    }
}

/// A fill mode.
#[tactic(auto, unfolding(crate::specs::Names::keyword_of))]
pub fn fill(text: &[u8], tokens: &[CssToken]) -> Result<Fill, ValueFault>
    ensures { result ≡ keyword_of fill_words (words text.now tokens.now) }
{
    let Some(bytes) = lone_ident(text, tokens) else {
        return Err(ValueFault::BadValue);
    };
    match fill_named(bytes) {
        Some(fill) => Ok(fill),
        None => Err(ValueFault::BadValue),
    }
}

/// A play state: whether it is `paused`.
#[tactic(auto, unfolding(crate::specs::Names::keyword_of))]
pub fn play(text: &[u8], tokens: &[CssToken]) -> Result<bool, ValueFault>
    ensures { result ≡ keyword_of play_words (words text.now tokens.now) }
{
    let Some(bytes) = lone_ident(text, tokens) else {
        return Err(ValueFault::BadValue);
    };
    match play_named(bytes) {
        Some(paused) => Ok(paused),
        None => Err(ValueFault::BadValue),
    }
}

/// A visibility: whether it is `visible`.
#[tactic(auto, unfolding(crate::specs::Names::keyword_of))]
pub fn visibility(text: &[u8], tokens: &[CssToken]) -> Result<bool, ValueFault>
    ensures { result ≡ keyword_of visibility_words (words text.now tokens.now) }
{
    let Some(bytes) = lone_ident(text, tokens) else {
        return Err(ValueFault::BadValue);
    };
    match visibility_named(bytes) {
        Some(visible) => Ok(visible),
        None => Err(ValueFault::BadValue),
    }
}

/// The bytes of the name of a keyframe set, where it isn't `none`.
#[tactic(auto, unfolding(crate::specs::Names::name_of, crate::specs::Names::named))]
pub fn name_text<'a>(text: &'a [u8], tokens: &[CssToken]) -> Result<Option<&'a [u8]>, ValueFault>
    ensures { mapped option_copied result ≡ name_of (words text.now tokens.now) }
{
    let Some(bytes) = lone_ident(text, tokens) else {
        return Err(ValueFault::BadValue);
    };
    if is_keyword(b"none", bytes) {
        return Ok(None);
    }
    match reserved(bytes) {
        Some(_) => Err(ValueFault::BadValue),
        None => Ok(Some(bytes)),
    }
}

/// A name with its own bytes.
pub fn owned_name(alloc: Global, bytes: Option<&[u8]>) -> Result<Option<Name>, ValueFault>
    ensures name { IfOk result (λ name. name ≡ option_copied bytes.entry) }
    ensures refused { IfErr result (λ fault. fault ≡ Refused) }
{
    match bytes {
        Some(bytes) => Ok(Some(Name::new(alloc, bytes)?)),
        None => Ok(None),
    }
}
