// One declaration.
ghost use Rattle.std.specs.Prelude.{◌≡◌, ◌++◌, ◌<◌, IfOk, IfSome, length, map, option_copied, option_map};
ghost use Rattle.css_declarations.specs.DeclarationGrammar.{decl_of, property_of};
ghost use Rattle.css_declarations.specs.DeclarationReading.{Adds, colon_at, declaration_at, ended_at, important_at, judged_name, mark_at, marked_at, name_at, named_at, shown, unit_at};

use crate::context::{Context, is_allowed, is_block, is_ended};
use crate::fault::SheetFault;
use crate::tokens::{is_bang, is_colon, is_ident, is_semicolon, is_word, place_of, token_text};
use crate::values::{split_value, value_at};
use css_values::property;
use css_values::types::Property;
use page_model::{Decl, List, Longhand, NoMemory};
use std::alloc::Global;
use style_tokens::CssToken;

/// The property that a token names.
#[tactic(auto, unfolding(crate::specs::DeclarationGrammar::property_of))]
fn property_of(text: &[u8], name: CssToken) -> Option<Property>
    ensures { result ≡ property_of text.now name }
{
    property(token_text(text, name))
}

/// The property's name at the front, and the tokens behind it.
#[tactic(auto, unfolding(crate::specs::DeclarationReading::name_at))]
fn name_at<'a>(
    context: Context,
    text: &[u8],
    end: u32,
    tokens: &'a [CssToken],
) -> Result<(Property, &'a [CssToken]), SheetFault>
    ensures { shown (λ f. (f.0, f.1.now)) result ≡ name_at context text.now end tokens.now }
{
    let Some((first, rest)) = tokens.split_first() else {
        return Err(SheetFault::BadSheet { at: end });
    };
    let at = first.place.from;
    if !is_ident(first.kind) {
        return Err(SheetFault::BadSheet { at });
    }
    match property_of(text, *first) {
        None => Err(SheetFault::UnknownProperty { at }),
        Some(property) => {
            if is_allowed(context, property) {
                Ok((property, rest))
            } else {
                Err(SheetFault::BadKeyframes { at })
            }
        }
    }
}

/// The tokens behind a `:`.
#[tactic(auto, unfolding(crate::specs::DeclarationReading::colon_at))]
fn colon_at(end: u32, tokens: &[CssToken]) -> Result<&[CssToken], SheetFault>
    ensures { shown (λ rest. rest.now) result ≡ colon_at end tokens.now }
{
    let Some((first, rest)) = tokens.split_first() else {
        return Err(SheetFault::BadSheet { at: end });
    };
    if is_colon(first.kind) {
        Ok(rest)
    } else {
        Err(SheetFault::BadSheet {
            at: first.place.from,
        })
    }
}

/// The property of a declaration, and the tokens behind its colon.
#[tactic(auto, unfolding(crate::specs::DeclarationReading::named_at))]
fn named_at<'a>(
    context: Context,
    text: &[u8],
    end: u32,
    tokens: &'a [CssToken],
) -> Result<(Property, &'a [CssToken]), SheetFault>
    ensures { shown (λ f. (f.0, f.1.now)) result ≡ named_at context text.now end tokens.now }
{
    let (property, rest) = name_at(context, text, end, tokens)?;
    let rest = colon_at(end, rest)?;
    Ok((property, rest))
}

/// The tokens behind an `important`.
#[tactic(auto, unfolding(crate::specs::DeclarationReading::important_at))]
fn important_at<'a>(
    text: &[u8],
    end: u32,
    tokens: &'a [CssToken],
) -> Result<(bool, &'a [CssToken]), SheetFault>
    ensures { shown (λ f. (f.0, f.1.now)) result ≡ important_at text.now end tokens.now }
{
    let Some((first, rest)) = tokens.split_first() else {
        return Err(SheetFault::BadSheet { at: end });
    };
    if is_word(b"important", text, *first) {
        Ok((true, rest))
    } else {
        Err(SheetFault::BadSheet {
            at: first.place.from,
        })
    }
}

/// Whether a value is important, and the tokens behind that.
#[tactic(auto, unfolding(crate::specs::DeclarationReading::mark_at))]
fn mark_at<'a>(
    context: Context,
    text: &[u8],
    end: u32,
    tokens: &'a [CssToken],
) -> Result<(bool, &'a [CssToken]), SheetFault>
    ensures { shown (λ f. (f.0, f.1.now)) result ≡ mark_at context text.now end tokens.now }
{
    let Some((first, rest)) = tokens.split_first() else {
        return Ok((false, tokens));
    };
    if !is_bang(first.kind) {
        return Ok((false, tokens));
    }
    if is_block(context) {
        return Err(SheetFault::BadKeyframes {
            at: first.place.from,
        });
    }
    important_at(text, end, rest)
}

/// The tokens where a declaration ends.
#[tactic(auto, unfolding(crate::specs::DeclarationReading::ended_at))]
fn ended_at(context: Context, end: u32, tokens: &[CssToken]) -> Result<&[CssToken], SheetFault>
    ensures { shown (λ rest. rest.now) result ≡ ended_at context end tokens.now }
{
    if is_ended(context, tokens) {
        Ok(tokens)
    } else {
        Err(SheetFault::BadSheet {
            at: place_of(end, tokens),
        })
    }
}

/// Whether a value is important, and the tokens where its declaration ends.
#[tactic(auto, unfolding(crate::specs::DeclarationReading::marked_at))]
fn marked_at<'a>(
    context: Context,
    text: &[u8],
    end: u32,
    tokens: &'a [CssToken],
) -> Result<(bool, &'a [CssToken]), SheetFault>
    ensures { shown (λ f. (f.0, f.1.now)) result ≡ marked_at context text.now end tokens.now }
{
    let (important, rest) = mark_at(context, text, end, tokens)?;
    let rest = ended_at(context, end, rest)?;
    Ok((important, rest))
}

/// Longhands as declarations, behind others.
fn add(
    longhands: List<Longhand>,
    important: bool,
    place: u32,
    decls: &mut List<Decl>,
) -> Result<(), NoMemory>
    ensures { IfOk result (λ done. decls.new ≡ decls.old ++ map (decl_of important place) longhands) }
{
    'adding: for longhand in longhands.into_vec() {
        decls.push(Decl {
            longhand,
            important,
            place,
        })?;
    }
    Ok(())
}

/// The tokens behind a declaration, whose longhands are put behind others.
#[tactic(auto, unfolding(crate::specs::DeclarationReading::declaration_at))]
fn declaration_at<'a>(
    alloc: Global,
    context: Context,
    text: &[u8],
    end: u32,
    tokens: &'a [CssToken],
    decls: &mut List<Decl>,
) -> Result<&'a [CssToken], SheetFault>
    ensures { Adds decls.old decls.new (shown (λ rest. rest.now) result) (declaration_at context text.now end tokens.now) }
{
    let place = place_of(end, tokens);
    let (property, rest) = named_at(context, text, end, tokens)?;
    let longhands = value_at(alloc, context, text, end, property, rest)?;
    let (_, behind) = split_value(rest);
    let (important, rest) = marked_at(context, text, end, behind)?;
    add(longhands, important, place, decls)?;
    Ok(rest)
}

/// The tokens behind a `;` or a declaration.
#[tactic(auto, unfolding(crate::specs::DeclarationReading::unit_at))]
pub(crate) fn unit_at<'a>(
    alloc: Global,
    context: Context,
    text: &[u8],
    end: u32,
    tokens: &'a [CssToken],
    decls: &mut List<Decl>,
) -> Result<&'a [CssToken], SheetFault>
    ensures { Adds decls.old decls.new (shown (λ rest. rest.now) result) (unit_at context text.now end tokens.now) }
{
    if let Some((first, rest)) = tokens.split_first() {
        if is_semicolon(first.kind) {
            return Ok(rest);
        }
    }
    declaration_at(alloc, context, text, end, tokens, decls)
}
