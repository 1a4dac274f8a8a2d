// Tests of tokens.
ghost use Rattle.std.specs.Prelude.{◌≡◌, ◌&&◌, ◌||◌};
ghost use Rattle.css_words.specs.Keywords.{is_keyword};
ghost use Rattle.css_declarations.specs.DeclarationGrammar.{ends_value};
ghost use Rattle.css_declarations.specs.TokenKinds.{is_bang, is_colon, is_ident, is_right_brace, is_semicolon, is_word, place_of, token_text};

use style_tokens::{CssKind, CssToken};

/// The byte of the file at which what is left of a text begins: the place of its first token, or its end.
pub fn place_of(end: u32, tokens: &[CssToken]) -> u32
    ensures { result ≡ place_of end tokens.now }
{
    match tokens.split_first() {
        Some((first, _)) => first.place.from,
        None => end,
    }
}

/// The bytes of a token; none, where it doesn't lie in the text.
#[tactic(auto, unfolding(css_words::specs::Words::bytes_between))]
pub fn token_text(text: &[u8], token: CssToken) -> &[u8]
    ensures { result.now ≡ token_text text.now token }
{
    let from = token.place.from as usize;
    let to = token.place.to as usize;
    if from <= to && to <= text.len() {
        &text[from..to]
    } else {
        &[]
    }
}

/// Whether it is an identifier.
pub(crate) fn is_ident(kind: CssKind) -> bool
    ensures { result ≡ is_ident kind }
{
    matches!(kind, CssKind::Ident)
}

/// Whether it is a `:`.
pub(crate) fn is_colon(kind: CssKind) -> bool
    ensures { result ≡ is_colon kind }
{
    matches!(kind, CssKind::Colon)
}

/// Whether it is a `;`.
pub(crate) fn is_semicolon(kind: CssKind) -> bool
    ensures { result ≡ is_semicolon kind }
{
    matches!(kind, CssKind::Semicolon)
}

/// Whether it is a `}`.
pub(crate) fn is_right_brace(kind: CssKind) -> bool
    ensures { result ≡ is_right_brace kind }
{
    matches!(kind, CssKind::RightBrace)
}

/// Whether it is a `!`.
pub(crate) fn is_bang(kind: CssKind) -> bool
    ensures { result ≡ is_bang kind }
{
    matches!(kind, CssKind::Bang)
}

/// Whether the tokens of a value end before one of this kind.
pub(crate) fn ends_value(kind: CssKind) -> bool
    ensures { result ≡ ends_value kind }
{
    matches!(
        kind,
        CssKind::Semicolon | CssKind::LeftBrace | CssKind::RightBrace | CssKind::Bang
    )
}

/// Whether a token is this keyword.
pub(crate) fn is_word(keyword: &[u8], text: &[u8], token: CssToken) -> bool
    ensures { result ≡ is_word keyword.now text.now token }
{
    is_ident(token.kind) && is_keyword(keyword, token_text(text, token))
}

/// Whether the bytes are this keyword, in any case.
#[tactic(auto, unfolding(css_words::specs::Keywords::is_keyword))]
fn is_keyword(keyword: &[u8], bytes: &[u8]) -> bool
    ensures { result ≡ is_keyword keyword.now bytes.now }
{
    bytes.eq_ignore_ascii_case(keyword)
}
