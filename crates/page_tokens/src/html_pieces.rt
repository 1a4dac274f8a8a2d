// The pieces of a page: tokens, and what stands between them.
ghost use Rattle.std.specs.Prelude.{◌≡◌, IfOk};
ghost use Rattle.std.specs.Option.{option_copied, option_map};
ghost use Rattle.std.specs.Str.{str_eq_ignore_ascii_case};
ghost use Rattle.page_tokens.specs.HtmlPieces.{after_opening, after_token, begins_as_end, has_no_ampersand};
ghost use Rattle.page_tokens.specs.HtmlReading.{after_dashes, as_token, comment_at, comment_text_at, declaration_at, doctype_at, end_tag_at, markup_at, open_piece_at, piece_at, raw_at, title_at};
ghost use Rattle.page_tokens.specs.HtmlShown.{content_now, piece_now, shown_content};

use crate::html_runs::{
    HtmlClass, after_any_case, after_byte, after_spaced_byte, after_white, run,
};
use crate::html_stand::Stand;
use crate::html_tags::{HtmlContent, closing, opening, plain};
use crate::token::HtmlKind;
use page_model::NoMemory;
use std::alloc::Global;
use text_tokens::is_white;

/// A piece of a page.
#[derive(Drop)]
pub(crate) enum Piece<'a> {
    /// White space or a comment.
    Between,
    /// A token.
    Token(HtmlContent<'a>),
}

/// A piece and the rest behind it, if one stands first.
type Found<'a> = Option<(Piece<'a>, &'a [u8])>;

/// The token as a piece.
fn token<'a>(found: Option<(HtmlContent<'a>, &'a [u8])>) -> Found<'a>
    ensures { option_map piece_now result ≡ as_token (option_map content_now found.entry) }
{
    match found {
        Some((content, rest)) => Some((Piece::Token(content), rest)),
        None => None,
    }
}

/// The rest behind the first `--`.
#[tactic(auto, using(crate::proofs::HtmlPieceLemmas::after_dashes_of_one))]
fn past_dashes(bytes: &[u8]) -> Option<&[u8]>
    ensures { option_copied result ≡ after_dashes bytes.now }
{
    let mut rest = bytes;
    'seeking: while rest.len() > 1 {
        if rest[0] == b'-' && rest[1] == b'-' {
            return Some(&rest[2..]);
        }
        rest = &rest[1..];
    }
    None
}

/// Whether `>` or `->` stands first.
fn begins_as_end(bytes: &[u8]) -> bool
    ensures { result ≡ begins_as_end bytes.now }
{
    match bytes {
        [] => false,
        [first] => *first == b'>',
        [first, second, ..] => *first == b'>' || *first == b'-' && *second == b'>',
    }
}

/// The rest behind a comment, from its text on.
#[tactic(auto, unfolding(crate::specs::HtmlReading::comment_text_at))]
fn comment_text(bytes: &[u8]) -> Option<&[u8]>
    ensures { option_copied result ≡ comment_text_at bytes.now }
{
    if begins_as_end(bytes) {
        return None;
    }
    let after = past_dashes(bytes)?;
    after_byte(b'>', after)
}

/// The rest behind a comment, behind its `<!`.
#[tactic(auto, unfolding(crate::specs::HtmlReading::comment_at))]
fn comment(bytes: &[u8]) -> Option<&[u8]>
    ensures { option_copied result ≡ comment_at bytes.now }
{
    let after = after_byte(b'-', bytes)?;
    let at_text = after_byte(b'-', after)?;
    comment_text(at_text)
}

/// The doctype behind its `<!`.
#[tactic(auto, unfolding(crate::specs::HtmlReading::doctype_at))]
fn doctype<'a>(alloc: Global, bytes: &'a [u8]) -> Option<(HtmlContent<'a>, &'a [u8])>
    ensures { option_map content_now result ≡ doctype_at bytes.now }
{
    let at_space = after_any_case(b"doctype", bytes)?;
    let at_html = after_white(at_space)?;
    let at_end = after_any_case(b"html", at_html)?;
    let rest = after_spaced_byte(b'>', at_end)?;
    Some((plain(alloc, HtmlKind::Doctype, b""), rest))
}

/// What stands behind `<!`.
#[tactic(auto, unfolding(crate::specs::HtmlReading::declaration_at))]
fn declaration<'a>(alloc: Global, bytes: &'a [u8]) -> Found<'a>
    ensures { option_map piece_now result ≡ declaration_at bytes.now }
{
    let (first, _) = bytes.split_first()?;
    if *first == b'-' {
        let rest = comment(bytes)?;
        Some((Piece::Between, rest))
    } else {
        token(doctype(alloc, bytes))
    }
}

/// What stands behind `<`.
#[tactic(auto, unfolding(crate::specs::HtmlReading::markup_at))]
fn markup<'a>(alloc: Global, bytes: &'a [u8]) -> Result<Found<'a>, NoMemory>
    ensures { IfOk result (λ found. option_map piece_now found ≡ markup_at bytes.now) }
{
    let Some((first, after)) = bytes.split_first() else {
        return Ok(None);
    };
    if *first == b'!' {
        Ok(declaration(alloc, after))
    } else if *first == b'/' {
        Ok(token(closing(alloc, after)))
    } else {
        let found = opening(alloc, bytes)?;
        Ok(token(found))
    }
}

/// What stands where anything may.
#[tactic(auto, unfolding(crate::specs::HtmlReading::open_piece_at))]
fn open_piece<'a>(alloc: Global, bytes: &'a [u8]) -> Result<Found<'a>, NoMemory>
    ensures { IfOk result (λ found. option_map piece_now found ≡ open_piece_at bytes.now) }
{
    let Some((first, after)) = bytes.split_first() else {
        return Ok(None);
    };
    if is_white(*first) {
        Ok(Some((Piece::Between, after)))
    } else if *first == b'<' {
        markup(alloc, after)
    } else {
        Ok(None)
    }
}

/// Raw text, up to the next `<`.
#[tactic(auto, unfolding(crate::specs::HtmlReading::raw_at))]
fn raw_text<'a>(alloc: Global, bytes: &'a [u8]) -> Option<(HtmlContent<'a>, &'a [u8])>
    ensures { option_map content_now result ≡ raw_at bytes.now }
{
    let (text, rest) = run(HtmlClass::RawText, bytes);
    let _end = after_byte(b'<', rest)?;
    Some((plain(alloc, HtmlKind::Raw, text), rest))
}

/// Whether the text holds no `&`.
fn has_no_ampersand(text: &[u8]) -> bool
    ensures { result ≡ has_no_ampersand text.now }
{
    text.iter().all(|byte| *byte != b'&')
}

/// The raw text of a title.
#[tactic(auto, unfolding(crate::specs::HtmlReading::title_at))]
fn title_text<'a>(alloc: Global, bytes: &'a [u8]) -> Option<(HtmlContent<'a>, &'a [u8])>
    ensures { option_map content_now result ≡ title_at bytes.now }
{
    let (text, _) = run(HtmlClass::RawText, bytes);
    if has_no_ampersand(text) {
        raw_text(alloc, bytes)
    } else {
        None
    }
}

/// A closing tag.
#[tactic(auto, unfolding(crate::specs::HtmlReading::end_tag_at))]
fn end_tag<'a>(alloc: Global, bytes: &'a [u8]) -> Option<(HtmlContent<'a>, &'a [u8])>
    ensures { option_map content_now result ≡ end_tag_at bytes.now }
{
    let at_slash = after_byte(b'<', bytes)?;
    let at_name = after_byte(b'/', at_slash)?;
    closing(alloc, at_name)
}

/// The piece that stands first, of those that may stand there.
pub(crate) fn first_piece<'a>(
    alloc: Global,
    stand: Stand,
    bytes: &'a [u8],
) -> Result<Found<'a>, NoMemory>
    ensures { IfOk result (λ found. option_map piece_now found ≡ piece_at stand bytes.now) }
{
    match stand {
        Stand::Anything => open_piece(alloc, bytes),
        Stand::TitleText => Ok(token(title_text(alloc, bytes))),
        Stand::StyleText => Ok(token(raw_text(alloc, bytes))),
        Stand::ItsEnd => Ok(token(end_tag(alloc, bytes))),
    }
}

/// Whether a tag's name is this word, without regard to case.
#[tactic(auto, using(crate::proofs::HtmlPieceLemmas::same_without_case))]
pub fn is_word(name: &[u8], word: &[u8]) -> bool
    ensures { result ≡ str_eq_ignore_ascii_case name.now word.now }
{
    name.eq_ignore_ascii_case(word)
}

/// What may stand behind an opening tag of this name.
fn after_opening(name: &[u8]) -> Stand
    ensures { result ≡ after_opening name.now }
{
    if is_word(name, b"title") {
        return Stand::TitleText;
    }
    if is_word(name, b"style") {
        return Stand::StyleText;
    }
    Stand::Anything
}

/// What may stand behind a token.
pub(crate) fn after_token(content: &HtmlContent<'_>) -> Stand
    ensures { result ≡ after_token (shown_content content.now) }
{
    match content.kind {
        HtmlKind::Opening => after_opening(content.name),
        HtmlKind::Raw => Stand::ItsEnd,
        HtmlKind::Doctype | HtmlKind::Closing => Stand::Anything,
    }
}
