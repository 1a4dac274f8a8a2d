// Selectors.
ghost use Rattle.std.specs.Prelude.{◌≡◌, ◌&&◌, ◌≤◌, ◌∷◌, ◌++◌, [], Some, IfOk, length};
ghost use Rattle.std.specs.List.{list_all};
ghost use Rattle.text_tokens.specs.Classes.{is_name_byte, is_name_start};
ghost use Rattle.css_declarations.specs.DeclarationReading.{shown};
ghost use Rattle.css_selectors.specs.Readings.{Fills, Puts, with_last};
ghost use Rattle.css_selectors.specs.SelectorGrammar.{Selector, Selectors, class_at, ends_behind, goes_on, id_name, is_bare, is_id, is_identifier, is_tag, part_at, with_part};
ghost use Rattle.css_selectors.specs.SelectorViews.{part_of};

use crate::marks::{begins_comma, behind_first, is_dot, is_hash, is_ident, is_keyword};
use css_declarations::{SheetFault, token_text};
use page_model::{Compound, List, Name, NoMemory};
use std::alloc::Global;
use style_tokens::CssToken;

/// What a part of a selector asks for.
#[derive(Clone, Copy)]
pub enum Kind {
    Tag,
    Id,
    Class,
}

/// A part of a compound selector, and the byte of the file behind it.
#[derive(Clone, Copy)]
pub struct Part<'a> {
    pub kind: Kind,
    pub name: &'a [u8],
    pub to: u32,
}

/// A byte with which a name begins: a letter or `_`.
fn is_name_start(byte: u8) -> bool
    ensures { result ≡ is_name_start byte }
{
    byte >= b'a' && byte <= b'z' || byte >= b'A' && byte <= b'Z' || byte == b'_'
}

/// A byte with which a name goes on: a letter, a digit, `_` or `-`.
fn is_name_byte(byte: u8) -> bool
    ensures { result ≡ is_name_byte byte }
{
    is_name_start(byte) || byte >= b'0' && byte <= b'9' || byte == b'-'
}

/// Whether all are bytes of a name.
fn are_name_bytes(bytes: &[u8]) -> bool
    ensures { result ≡ list_all is_name_byte bytes.now }
{
    bytes.iter().all(|byte| is_name_byte(*byte))
}

/// Whether they are an identifier that doesn't begin with `-`.
fn is_bare(bytes: &[u8]) -> bool
    ensures { result ≡ is_bare bytes.now }
{
    match bytes.split_first() {
        Some((first, rest)) => is_name_start(*first) && are_name_bytes(rest),
        None => false,
    }
}

/// Whether they are an identifier.
fn is_identifier(bytes: &[u8]) -> bool
    ensures { result ≡ is_identifier bytes.now }
{
    match bytes.split_first() {
        Some((b'-', rest)) => is_bare(rest),
        Some(_) => is_bare(bytes),
        None => false,
    }
}

/// The name of an id.
fn id_name(text: &[u8], token: CssToken) -> &[u8]
    ensures { result.now ≡ id_name text.now token }
{
    let bytes = token_text(text, token);
    match bytes.split_first() {
        Some((_, rest)) => rest,
        None => bytes,
    }
}

/// Whether a token is an id.
fn is_id(text: &[u8], token: CssToken) -> bool
    ensures { result ≡ is_id text.now token }
{
    is_hash(token.kind) && is_identifier(id_name(text, token))
}

/// Whether a token is a type that may stand there.
fn is_tag(text: &[u8], token: CssToken) -> bool
    ensures { result ≡ is_tag text.now token }
{
    is_ident(token.kind) && !is_keyword(b"html", token_text(text, token))
}

/// A class behind its `.`, and the tokens behind it.
#[tactic(auto, unfolding(crate::specs::SelectorGrammar::class_at))]
fn class_at<'a>(
    text: &'a [u8],
    end: u32,
    dot: CssToken,
    tokens: &'a [CssToken],
) -> Result<(Part<'a>, &'a [CssToken]), SheetFault>
    ensures { shown (λ f. (part_of f.0, f.1.now)) result ≡ class_at text.now end dot tokens.now }
{
    let Some((name, rest)) = tokens.split_first() else {
        return Err(SheetFault::BadSheet { at: end });
    };
    if !is_ident(name.kind) || dot.place.to != name.place.from {
        return Err(SheetFault::BadSheet {
            at: name.place.from,
        });
    }
    let part = Part {
        kind: Kind::Class,
        name: token_text(text, *name),
        to: name.place.to,
    };
    Ok((part, rest))
}

/// A part of a selector, and the tokens behind it.
#[tactic(auto, unfolding(crate::specs::SelectorGrammar::part_at))]
fn part_at<'a>(
    text: &'a [u8],
    end: u32,
    tokens: &'a [CssToken],
) -> Result<(Part<'a>, &'a [CssToken]), SheetFault>
    ensures { shown (λ f. (part_of f.0, f.1.now)) result ≡ part_at text.now end tokens.now }
{
    let Some((first, rest)) = tokens.split_first() else {
        return Err(SheetFault::BadSheet { at: end });
    };
    let to = first.place.to;
    if is_dot(first.kind) {
        return class_at(text, end, *first, rest);
    }
    if is_id(text, *first) {
        let name = id_name(text, *first);
        let kind = Kind::Id;
        return Ok((Part { kind, name, to }, rest));
    }
    if is_tag(text, *first) {
        let name = token_text(text, *first);
        let kind = Kind::Tag;
        return Ok((Part { kind, name, to }, rest));
    }
    Err(SheetFault::BadSheet {
        at: first.place.from,
    })
}

/// Whether an id or a class directly follows at this byte.
fn goes_on(text: &[u8], to: u32, tokens: &[CssToken]) -> bool
    ensures { result ≡ goes_on text.now to tokens.now }
{
    match tokens.split_first() {
        Some((first, _)) => {
            to == first.place.from && (is_dot(first.kind) || is_id(text, *first))
        }
        None => false,
    }
}

/// Whether a compound selector ends behind its last part.
fn ends_behind(text: &[u8], last: Option<u32>, tokens: &[CssToken]) -> bool
    ensures { result ≡ ends_behind text.now last tokens.now }
{
    match last {
        Some(to) => !goes_on(text, to, tokens),
        None => false,
    }
}

/// One part more.
fn add_part(alloc: Global, compound: &mut Compound, part: Part<'_>) -> Result<(), NoMemory>
    ensures { IfOk result (λ done. compound.new ≡ with_part compound.old (part_of part.entry)) }
{
    let name = Name::new(alloc, part.name)?;
    match part.kind {
        Kind::Tag => {
            compound.tag = Some(name);
            Ok(())
        }
        Kind::Id => compound.ids.push(name),
        Kind::Class => compound.classes.push(name),
    }
}

/// A compound selector is put behind others; the tokens behind it.
fn selector_at<'a>(
    alloc: Global,
    text: &'a [u8],
    end: u32,
    tokens: &'a [CssToken],
    selectors: &mut List<Compound>,
) -> Result<&'a [CssToken], SheetFault>
    ensures { Puts with_last (Selector text.now end tokens.now) selectors.old selectors.new (shown (λ rest. rest.now) result) }
{
    let mut compound = Compound {
        tag: None,
        ids: List::new(alloc),
        classes: List::new(alloc),
    };
    let mut last = None;
    let mut rest = tokens;
    'parts: while !ends_behind(text, last, rest) {
        let (part, more) = match part_at(text, end, rest) {
            Ok(found) => found,
            Err(fault) => return Err(fault),
        };
        add_part(alloc, &mut compound, part)?;
        last = Some(part.to);
        rest = more;
    }
    selectors.push(compound)?;
    Ok(rest)
}

/// The selectors of a rule, and the tokens behind them.
pub fn selectors_at<'a>(
    alloc: Global,
    text: &'a [u8],
    end: u32,
    tokens: &'a [CssToken],
    selectors: &mut List<Compound>,
) -> Result<&'a [CssToken], SheetFault>
    requires { selectors.old ≡ [] }
    ensures { Fills (Selectors text.now end tokens.now) selectors.new (shown (λ rest. rest.now) result) }
{
    let mut rest = match selector_at(alloc, text, end, tokens, selectors) {
        Ok(rest) => rest,
        Err(fault) => return Err(fault),
    };
    'listing: while begins_comma(rest) {
        match selector_at(alloc, text, end, behind_first(rest), selectors) {
            Ok(more) => rest = more,
            Err(fault) => return Err(fault),
        }
    }
    Ok(rest)
}
