// Tests of tokens, and single tokens.
ghost use Rattle.std.specs.Prelude.{◌≡◌, ◌&&◌, ◌==◌};
ghost use Rattle.css_declarations.specs.DeclarationReading.{shown};
ghost use Rattle.css_declarations.specs.TokenKinds.{begins, is_left_brace, is_right_brace, is_word};
ghost use Rattle.css_selectors.specs.Readings.{token_at};
ghost use Rattle.css_parts.specs.KeyframeGrammar.{is_at_word, is_number};

use css_declarations::{SheetFault, token_text};
pub use css_selectors::marks::{begins_comma, behind_first, is_ident, is_keyword};
use style_tokens::{CssKind, CssToken};

/// Whether it is an `@` with a name.
pub fn is_at_word(kind: CssKind) -> bool
    ensures { result ≡ is_at_word kind }
{
    matches!(kind, CssKind::AtWord)
}

/// Whether it is a number.
pub fn is_number(kind: CssKind) -> bool
    ensures { result ≡ is_number kind }
{
    matches!(kind, CssKind::Number)
}

/// Whether a token is this keyword.
pub fn is_word(keyword: &[u8], text: &[u8], token: CssToken) -> bool
    ensures { result ≡ is_word keyword.now text.now token }
{
    is_ident(token.kind) && is_keyword(keyword, token_text(text, token))
}

/// Whether a `}` is at the front.
pub fn begins_close(tokens: &[CssToken]) -> bool
    ensures { result ≡ begins is_right_brace tokens.now }
{
    match tokens.split_first() {
        Some((first, _)) => matches!(first.kind, CssKind::RightBrace),
        None => false,
    }
}

/// Whether an `@` with a name is at the front.
pub fn begins_at_word(tokens: &[CssToken]) -> bool
    ensures { result ≡ begins is_at_word tokens.now }
{
    match tokens.split_first() {
        Some((first, _)) => is_at_word(first.kind),
        None => false,
    }
}

/// A `{`, and the tokens behind it.
#[tactic(auto, unfolding(css_selectors::specs::Readings::token_at))]
pub fn open_at(end: u32, tokens: &[CssToken]) -> Result<(CssToken, &[CssToken]), SheetFault>
    ensures { shown (λ f. (f.0, f.1.now)) result ≡ token_at is_left_brace end tokens.now }
{
    let Some((first, rest)) = tokens.split_first() else {
        return Err(SheetFault::BadSheet { at: end });
    };
    match first.kind {
        CssKind::LeftBrace => Ok((*first, rest)),
        _ => Err(SheetFault::BadSheet {
            at: first.place.from,
        }),
    }
}

/// A `}`, and the tokens behind it.
#[tactic(auto, unfolding(css_selectors::specs::Readings::token_at))]
pub fn close_at(end: u32, tokens: &[CssToken]) -> Result<(CssToken, &[CssToken]), SheetFault>
    ensures { shown (λ f. (f.0, f.1.now)) result ≡ token_at is_right_brace end tokens.now }
{
    let Some((first, rest)) = tokens.split_first() else {
        return Err(SheetFault::BadSheet { at: end });
    };
    match first.kind {
        CssKind::RightBrace => Ok((*first, rest)),
        _ => Err(SheetFault::BadSheet {
            at: first.place.from,
        }),
    }
}
