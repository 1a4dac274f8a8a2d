// The tokens of a value as words: their kinds and their bytes.
ghost use Rattle.std.specs.Prelude.{◌≡◌, option_copied, option_map};
ghost use Rattle.css_words.specs.Words.{behind, bytes_between, ended, front_of, function_at, is_close, is_comma, is_lone, lone};
ghost use Rattle.css_words.specs.Words.{only_one, when_function, when_hash, when_ident, when_number, words};

use crate::keywords::is_keyword;
use style_tokens::{CssKind, CssToken};

/// The bytes of a token; none, where it doesn't lie in the text.
#[tactic(auto, unfolding(crate::specs::Words::bytes_between))]
fn bytes_of(text: &[u8], token: CssToken) -> &[u8]
    ensures { result.now ≡ bytes_between text.now token.place.from token.place.to }
{
    let from = token.place.from as usize;
    let to = token.place.to as usize;
    if from <= to && to <= text.len() {
        &text[from..to]
    } else {
        &[]
    }
}

/// An identifier at the front, and the tokens behind it.
#[tactic(auto, unfolding(crate::specs::Words::front_of))]
pub fn ident_at<'a>(text: &'a [u8], tokens: &'a [CssToken]) -> Option<(&'a [u8], &'a [CssToken])>
    ensures { option_map (λ f. (f.0.now, words text.now f.1.now)) result
        ≡ front_of when_ident (words text.now tokens.now) }
{
    let (first, rest) = tokens.split_first()?;
    match first.kind {
        CssKind::Ident => Some((bytes_of(text, *first), rest)),
        _ => None,
    }
}

/// A number at the front, and the tokens behind it.
#[tactic(auto, unfolding(crate::specs::Words::front_of))]
pub fn number_text_at<'a>(
    text: &'a [u8],
    tokens: &'a [CssToken],
) -> Option<(&'a [u8], &'a [CssToken])>
    ensures { option_map (λ f. (f.0.now, words text.now f.1.now)) result
        ≡ front_of when_number (words text.now tokens.now) }
{
    let (first, rest) = tokens.split_first()?;
    match first.kind {
        CssKind::Number => Some((bytes_of(text, *first), rest)),
        _ => None,
    }
}

/// A function's name with its `(` at the front, and the tokens behind it.
#[tactic(auto, unfolding(crate::specs::Words::front_of))]
pub fn function_text_at<'a>(
    text: &'a [u8],
    tokens: &'a [CssToken],
) -> Option<(&'a [u8], &'a [CssToken])>
    ensures { option_map (λ f. (f.0.now, words text.now f.1.now)) result
        ≡ front_of when_function (words text.now tokens.now) }
{
    let (first, rest) = tokens.split_first()?;
    match first.kind {
        CssKind::Function => Some((bytes_of(text, *first), rest)),
        _ => None,
    }
}

/// The tokens behind a comma.
#[tactic(auto, unfolding(crate::specs::Words::behind))]
pub fn behind_comma<'a>(text: &[u8], tokens: &'a [CssToken]) -> Option<&'a [CssToken]>
    ensures { option_map (λ rest. words text.now rest.now) result ≡ behind is_comma (words text.now tokens.now) }
{
    let (first, rest) = tokens.split_first()?;
    match first.kind {
        CssKind::Comma => Some(rest),
        _ => None,
    }
}

/// The tokens behind a `)`.
#[tactic(auto, unfolding(crate::specs::Words::behind))]
pub fn behind_close<'a>(text: &[u8], tokens: &'a [CssToken]) -> Option<&'a [CssToken]>
    ensures { option_map (λ rest. words text.now rest.now) result ≡ behind is_close (words text.now tokens.now) }
{
    let (first, rest) = tokens.split_first()?;
    match first.kind {
        CssKind::RightParen => Some(rest),
        _ => None,
    }
}

/// A lone token.
fn lone_token(tokens: &[CssToken]) -> Option<CssToken>
    ensures { result ≡ only_one tokens.now }
{
    let (first, rest) = tokens.split_first()?;
    match rest.split_first() {
        Some(_) => None,
        None => Some(*first),
    }
}

/// The bytes of a lone identifier.
#[tactic(auto, unfolding(crate::specs::Words::lone))]
pub fn lone_ident<'a>(text: &'a [u8], tokens: &[CssToken]) -> Option<&'a [u8]>
    ensures { option_copied result ≡ lone when_ident (words text.now tokens.now) }
{
    let token = lone_token(tokens)?;
    match token.kind {
        CssKind::Ident => Some(bytes_of(text, token)),
        _ => None,
    }
}

/// The bytes of a lone hash.
#[tactic(auto, unfolding(crate::specs::Words::lone))]
pub fn lone_hash<'a>(text: &'a [u8], tokens: &[CssToken]) -> Option<&'a [u8]>
    ensures { option_copied result ≡ lone when_hash (words text.now tokens.now) }
{
    let token = lone_token(tokens)?;
    match token.kind {
        CssKind::Hash => Some(bytes_of(text, token)),
        _ => None,
    }
}

/// The bytes of a lone number.
#[tactic(auto, unfolding(crate::specs::Words::lone))]
pub fn lone_number_text<'a>(text: &'a [u8], tokens: &[CssToken]) -> Option<&'a [u8]>
    ensures { option_copied result ≡ lone when_number (words text.now tokens.now) }
{
    let token = lone_token(tokens)?;
    match token.kind {
        CssKind::Number => Some(bytes_of(text, token)),
        _ => None,
    }
}

/// Whether this keyword stands there alone.
#[tactic(auto, unfolding(crate::specs::Words::is_lone))]
pub fn is_lone(keyword: &[u8], text: &[u8], tokens: &[CssToken]) -> bool
    ensures { result ≡ is_lone keyword.now (words text.now tokens.now) }
{
    match lone_ident(text, tokens) {
        Some(bytes) => is_keyword(keyword, bytes),
        None => false,
    }
}

/// The tokens behind a function's name with its `(`.
#[tactic(auto, unfolding(crate::specs::Words::function_at))]
pub fn function_at<'a>(
    name: &[u8],
    text: &'a [u8],
    tokens: &'a [CssToken],
) -> Option<&'a [CssToken]>
    ensures { option_map (λ rest. words text.now rest.now) result ≡ function_at name.now (words text.now tokens.now) }
{
    let (bytes, rest) = function_text_at(text, tokens)?;
    if is_keyword(name, bytes) {
        Some(rest)
    } else {
        None
    }
}

/// The value, where no token is left.
pub fn ended<T: Copy>(value: T, text: &[u8], tokens: &[CssToken]) -> Option<T>
    ensures { result ≡ ended value (words text.now tokens.now) }
{
    match tokens.split_first() {
        Some(_) => None,
        None => Some(value),
    }
}
