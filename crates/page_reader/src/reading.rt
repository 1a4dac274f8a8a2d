// From the bytes of a page to its elements.
ghost use Rattle.std.specs.Prelude.{◌≡◌, ◌<◌, ◌≤◌, IfErr, IfNone, IfOk, IfSome, IsUtf8, MatchOption, Ok, length, map, position};
ghost use Rattle.std.specs.Str.{IsValidUpTo};
ghost use Rattle.page_tokens.specs.HtmlShown.{shown_word};
ghost use Rattle.page_tokens.specs.HtmlText.{AreWordsOf};
ghost use Rattle.page_reader.specs.PageReading.{IsJudged, told};
ghost use Rattle.page_reader.specs.PageText.{IsPageFault, IsRead, SpellsNone, is_control};

use crate::fault::PageFault;
use crate::judging::judge;
use page_model::PageText;
use page_tokens::{HtmlWord, ScanFault, scan_words};
use std::alloc::Global;

/// The most boxes of a page, and its body.
const MOST_ELEMENTS: usize = 65;

/// Whether a page may not hold the byte.
fn is_control(byte: u8) -> bool
    ensures { result ≡ is_control byte }
{
    byte <= 8 || byte == 11 || byte >= 14 && byte <= 31 || byte == 127
}

/// Where the bytes cease to be UTF-8, if they do.
fn not_utf8(text: &[u8]) -> Option<u32>
    requires { length text.now ≤ 1048576 }
    ensures { MatchOption result (IsUtf8 text.now) (λ place. IsValidUpTo text.now place) }
{
    match str::from_utf8(text) {
        Ok(_) => None,
        Err(error) => Some(error.valid_up_to() as u32),
    }
}

/// Where the first control byte stands, if there is one.
fn control_place(text: &[u8]) -> Option<usize>
    ensures place { result ≡ position is_control text.now }
    ensures within { IfSome result (λ place. place < length text.now) }
{
    text.iter().position(|byte| is_control(*byte))
}

/// The same, as a place in a file.
fn first_control(text: &[u8]) -> Option<u32>
    requires { length text.now ≤ 1048576 }
    ensures { result ≡ position is_control text.now }
{
    match control_place(text) {
        Some(place) => Some(place as u32),
        None => None,
    }
}

/// Where the bytes cease to be UTF-8 without control bytes, if they do.
#[tactic(auto, using(crate::proofs::PageLemmas::is_not_utf8, crate::proofs::PageLemmas::has_control))]
fn bad_byte(text: &[u8]) -> Option<u32>
    requires { length text.now ≤ 1048576 }
    ensures bad { IfSome result (λ place. SpellsNone text.now place) }
    ensures utf8 { IfNone result (IsUtf8 text.now) }
    ensures no_control { IfNone result (position is_control text.now ≡ None) }
{
    match not_utf8(text) {
        Some(at) => Some(at),
        None => first_control(text),
    }
}

/// The page, if it has few enough boxes.
#[tactic(auto, using(crate::proofs::PageLemmas::too_many, crate::proofs::PageLemmas::is_few))]
fn with_few_boxes(
    text: &[u8],
    words: &[HtmlWord<'_>],
    page: PageText,
) -> Result<PageText, PageFault>
    requires utf8 { IsUtf8 text.now }
    requires no_control { position is_control text.now ≡ None }
    requires tokens { AreWordsOf text.now (map shown_word words.now) }
    requires page { IsJudged (length text.now) (map shown_word words.now) (Ok page) }
    ensures ok { IfOk result (λ page. IsRead text.now page) }
    ensures err { IfErr result (λ fault. IsPageFault text.now fault) }
{
    if page.elements.len() > MOST_ELEMENTS {
        return Err(PageFault::TooMany);
    }
    Ok(page)
}

/// The page of a text's tokens.
#[tactic(auto, using(crate::proofs::PageLemmas::has_no_page))]
fn read_words(alloc: Global, text: &[u8], words: &[HtmlWord<'_>]) -> Result<PageText, PageFault>
    requires size { length text.now ≤ 1048576 }
    requires utf8 { IsUtf8 text.now }
    requires no_control { position is_control text.now ≡ None }
    requires tokens { AreWordsOf text.now (map shown_word words.now) }
    ensures ok { IfOk result (λ page. IsRead text.now page) }
    ensures err { IfErr result (λ fault. IsPageFault text.now fault) }
{
    let found = judge(alloc, words, text.len() as u32)?;
    match found {
        Ok(page) => with_few_boxes(text, words, page),
        Err(at) => Err(PageFault::BadText { at }),
    }
}

/// A fault of the tokens as one of the page.
fn told(fault: ScanFault) -> PageFault
    ensures { result ≡ told fault }
{
    match fault {
        ScanFault::BadToken { at } => PageFault::BadText { at },
        ScanFault::NoMemory => PageFault::NoMemory,
    }
}

/// The page of a text without bad bytes.
#[tactic(auto, using(crate::proofs::PageLemmas::has_scan_fault))]
fn read_text(alloc: Global, text: &[u8]) -> Result<PageText, PageFault>
    requires size { length text.now ≤ 1048576 }
    requires utf8 { IsUtf8 text.now }
    requires no_control { position is_control text.now ≡ None }
    ensures ok { IfOk result (λ page. IsRead text.now page) }
    ensures err { IfErr result (λ fault. IsPageFault text.now fault) }
{
    match scan_words(alloc, text) {
        Ok(words) => read_words(alloc, text, words.as_slice()),
        Err(fault) => Err(told(fault)),
    }
}

/// The elements of a page and the place of its style text. It is `Ok` exactly where the bytes spell a page of at most 64
/// boxes; `TooMany` where they spell one of more, and `BadText` where they spell none, with the place where they cease to.
pub fn read_page(alloc: Global, text: &[u8]) -> Result<PageText, PageFault>
    requires { length text.now ≤ 1048576 }
    ensures ok { IfOk result (λ page. IsRead text.now page) }
    ensures err { IfErr result (λ fault. IsPageFault text.now fault) }
{
    match bad_byte(text) {
        Some(at) => Err(PageFault::BadText { at }),
        None => read_text(alloc, text),
    }
}
