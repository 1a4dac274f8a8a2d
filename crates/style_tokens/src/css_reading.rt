// What stands at the front of some bytes of a style text.
ghost use Rattle.std.specs.Prelude.{◌≡◌, ◌∷◌, [], MatchOption, option_copied, option_map};
ghost use Rattle.text_tokens.specs.Classes.{is_digit, is_name_byte, is_name_start};
ghost use Rattle.style_tokens.specs.CssReading.{after_close, after_fraction, after_sign, after_unit, comment_at, decimal_at};
ghost use Rattle.style_tokens.specs.CssReading.{gap_at, ident_at, mark_of, marked_at, named, number_at, run_at, skip, token_at};

use crate::token::CssKind;
use text_tokens::{is_digit, is_name_byte, is_name_start, is_white};

/// A token at the front of some bytes, and the bytes behind it.
#[derive(Clone, Copy)]
pub struct CssFront<'a> {
    pub kind: CssKind,
    pub rest: &'a [u8],
}

/// The bytes behind the digits at the front.
fn skip_digits(bytes: &[u8]) -> &[u8]
    ensures { result.now ≡ skip is_digit bytes.now }
{
    let mut rest = bytes;
    'digits: while let Some((first, more)) = rest.split_first() {
        if !is_digit(*first) {
            return rest;
        }
        rest = more;
    }
    rest
}

/// The bytes behind the letters, digits, `_` and `-` at the front.
fn skip_name(bytes: &[u8]) -> &[u8]
    ensures { result.now ≡ skip is_name_byte bytes.now }
{
    let mut rest = bytes;
    'name: while let Some((first, more)) = rest.split_first() {
        if !is_name_byte(*first) {
            return rest;
        }
        rest = more;
    }
    rest
}

/// The bytes behind one digit or more.
#[tactic(auto, unfolding(crate::specs::CssReading::run_at))]
fn digits_at(bytes: &[u8]) -> Option<&[u8]>
    ensures { option_copied result ≡ run_at is_digit is_digit bytes.now }
{
    let (first, rest) = bytes.split_first()?;
    if is_digit(*first) {
        Some(skip_digits(rest))
    } else {
        None
    }
}

/// The bytes behind an identifier.
#[tactic(auto, unfolding(crate::specs::CssReading::run_at))]
fn bare_at(bytes: &[u8]) -> Option<&[u8]>
    ensures { option_copied result ≡ run_at is_name_start is_name_byte bytes.now }
{
    let (first, rest) = bytes.split_first()?;
    if is_name_start(*first) {
        Some(skip_name(rest))
    } else {
        None
    }
}

/// The bytes behind an identifier.
#[tactic(auto, unfolding(crate::specs::CssReading::ident_at))]
fn ident_at(bytes: &[u8]) -> Option<&[u8]>
    ensures { option_copied result ≡ ident_at bytes.now }
{
    let (first, rest) = bytes.split_first()?;
    if *first == b'-' {
        bare_at(rest)
    } else {
        bare_at(bytes)
    }
}

/// The bytes behind a point with digits, if one stands there.
#[tactic(auto, unfolding(crate::specs::CssReading::after_fraction))]
fn after_fraction(bytes: &[u8]) -> &[u8]
    ensures { result.now ≡ after_fraction bytes.now }
{
    let Some((first, rest)) = bytes.split_first() else {
        return bytes;
    };
    if *first != b'.' {
        return bytes;
    }
    match digits_at(rest) {
        Some(behind) => behind,
        None => bytes,
    }
}

/// The bytes behind digits, with a point or without.
#[tactic(auto, unfolding(crate::specs::CssReading::decimal_at))]
fn decimal_at(bytes: &[u8]) -> Option<&[u8]>
    ensures { option_copied result ≡ decimal_at bytes.now }
{
    let (first, rest) = bytes.split_first()?;
    if *first == b'.' {
        return digits_at(rest);
    }
    match digits_at(bytes) {
        Some(behind) => Some(after_fraction(behind)),
        None => None,
    }
}

/// The bytes behind a `%` or an identifier, if one stands there.
#[tactic(auto, unfolding(crate::specs::CssReading::after_unit))]
fn after_unit(bytes: &[u8]) -> &[u8]
    ensures { result.now ≡ after_unit bytes.now }
{
    let Some((first, rest)) = bytes.split_first() else {
        return bytes;
    };
    if *first == b'%' {
        return rest;
    }
    match ident_at(bytes) {
        Some(behind) => behind,
        None => bytes,
    }
}

/// The bytes behind a sign, if one stands there.
#[tactic(auto, unfolding(crate::specs::CssReading::after_sign))]
fn after_sign(bytes: &[u8]) -> &[u8]
    ensures { result.now ≡ after_sign bytes.now }
{
    let Some((first, rest)) = bytes.split_first() else {
        return bytes;
    };
    if *first == b'+' || *first == b'-' {
        rest
    } else {
        bytes
    }
}

/// The bytes behind a number with its unit.
#[tactic(auto, unfolding(crate::specs::CssReading::number_at))]
fn number_at(bytes: &[u8]) -> Option<&[u8]>
    ensures { option_copied result ≡ number_at bytes.now }
{
    let behind = decimal_at(after_sign(bytes))?;
    Some(after_unit(behind))
}

/// The token of an identifier, with what stands behind it.
#[tactic(auto, unfolding(crate::specs::CssReading::named))]
fn named(behind: &[u8]) -> CssFront<'_>
    ensures { (result.kind, result.rest.now) ≡ named behind.now }
{
    match behind.split_first() {
        Some((b'(', rest)) => CssFront {
            kind: CssKind::Function,
            rest,
        },
        _ => CssFront {
            kind: CssKind::Ident,
            rest: behind,
        },
    }
}

/// The kind of a token of one byte.
#[tactic(auto, unfolding(crate::specs::CssReading::mark_of))]
fn mark_of(byte: u8) -> Option<CssKind>
    ensures { result ≡ mark_of byte }
{
    match byte {
        b':' => Some(CssKind::Colon),
        b';' => Some(CssKind::Semicolon),
        b',' => Some(CssKind::Comma),
        b'{' => Some(CssKind::LeftBrace),
        b'}' => Some(CssKind::RightBrace),
        b')' => Some(CssKind::RightParen),
        b'!' => Some(CssKind::Bang),
        b'.' => Some(CssKind::Dot),
        _ => None,
    }
}

/// The bytes behind a letter, digit, `_` or `-`, and all such bytes after it.
#[tactic(auto, unfolding(crate::specs::CssReading::run_at))]
fn hash_at(bytes: &[u8]) -> Option<&[u8]>
    ensures { option_copied result ≡ run_at is_name_byte is_name_byte bytes.now }
{
    let (first, rest) = bytes.split_first()?;
    if is_name_byte(*first) {
        Some(skip_name(rest))
    } else {
        None
    }
}

/// A token that is told by its first byte.
#[tactic(auto, unfolding(crate::specs::CssReading::marked_at))]
fn marked_at(bytes: &[u8]) -> Option<CssFront<'_>>
    ensures { option_map (λ f. (f.kind, f.rest.now)) result ≡ marked_at bytes.now }
{
    let (first, rest) = bytes.split_first()?;
    if *first == b'@' {
        let rest = ident_at(rest)?;
        return Some(CssFront {
            kind: CssKind::AtWord,
            rest,
        });
    }
    if *first == b'#' {
        let rest = hash_at(rest)?;
        return Some(CssFront {
            kind: CssKind::Hash,
            rest,
        });
    }
    let kind = mark_of(*first)?;
    Some(CssFront { kind, rest })
}

/// The longest token at the front.
#[tactic(auto, unfolding(crate::specs::CssReading::token_at))]
pub fn token_at(bytes: &[u8]) -> Option<CssFront<'_>>
    ensures { option_map (λ f. (f.kind, f.rest.now)) result ≡ token_at bytes.now }
{
    if let Some(rest) = number_at(bytes) {
        return Some(CssFront {
            kind: CssKind::Number,
            rest,
        });
    }
    if let Some(behind) = ident_at(bytes) {
        return Some(named(behind));
    }
    marked_at(bytes)
}

/// The bytes behind the first `*/`.
#[tactic(auto, unfolding(crate::specs::CssReading::after_close))]
fn after_close(bytes: &[u8]) -> Option<&[u8]>
    ensures { option_copied result ≡ after_close bytes.now }
{
    let mut rest = bytes;
    'closing: while let Some((first, more)) = rest.split_first() {
        let (second, behind) = more.split_first()?;
        if *first == b'*' && *second == b'/' {
            return Some(behind);
        }
        rest = more;
    }
    None
}

/// The bytes behind a comment.
#[tactic(auto, unfolding(crate::specs::CssReading::comment_at))]
fn comment_at(bytes: &[u8]) -> Option<&[u8]>
    ensures { option_copied result ≡ comment_at bytes.now }
{
    let (first, more) = bytes.split_first()?;
    let (second, rest) = more.split_first()?;
    if *first == b'/' && *second == b'*' {
        after_close(rest)
    } else {
        None
    }
}

/// The bytes behind a byte of white space or a comment.
#[tactic(auto, unfolding(crate::specs::CssReading::gap_at))]
pub fn gap_at(bytes: &[u8]) -> Option<&[u8]>
    ensures { option_copied result ≡ gap_at bytes.now }
{
    let (first, rest) = bytes.split_first()?;
    if is_white(*first) {
        Some(rest)
    } else {
        comment_at(bytes)
    }
}
