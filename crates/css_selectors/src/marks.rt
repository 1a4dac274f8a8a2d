// Tests of single tokens, and of the one at the front.
ghost use Rattle.std.specs.Prelude.{◌≡◌};
ghost use Rattle.css_words.specs.Keywords.{is_keyword};
ghost use Rattle.css_declarations.specs.TokenKinds.{begins, is_ident};
ghost use Rattle.css_selectors.specs.Readings.{behind_first, is_comma};
ghost use Rattle.css_selectors.specs.SelectorGrammar.{is_dot, is_hash};

use style_tokens::{CssKind, CssToken};

/// Whether it is an identifier.
pub fn is_ident(kind: CssKind) -> bool
    ensures { result ≡ is_ident kind }
{
    matches!(kind, CssKind::Ident)
}

/// Whether it is a `.`.
pub fn is_dot(kind: CssKind) -> bool
    ensures { result ≡ is_dot kind }
{
    matches!(kind, CssKind::Dot)
}

/// Whether it is a `#` with what stands behind it.
pub fn is_hash(kind: CssKind) -> bool
    ensures { result ≡ is_hash kind }
{
    matches!(kind, CssKind::Hash)
}

/// Whether the bytes are this keyword, in any case.
#[tactic(auto, unfolding(css_words::specs::Keywords::is_keyword))]
pub fn is_keyword(keyword: &[u8], bytes: &[u8]) -> bool
    ensures { result ≡ is_keyword keyword.now bytes.now }
{
    bytes.eq_ignore_ascii_case(keyword)
}

/// Whether a comma is at the front.
pub fn begins_comma(tokens: &[CssToken]) -> bool
    ensures { result ≡ begins is_comma tokens.now }
{
    match tokens.split_first() {
        Some((first, _)) => matches!(first.kind, CssKind::Comma),
        None => false,
    }
}

/// The tokens behind the first.
pub fn behind_first(tokens: &[CssToken]) -> &[CssToken]
    ensures { result.now ≡ behind_first tokens.now }
{
    match tokens.split_first() {
        Some((_, rest)) => rest,
        None => tokens,
    }
}
