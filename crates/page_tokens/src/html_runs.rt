// Runs of bytes at the front of a text.
ghost use Rattle.std.specs.Prelude.{◌≡◌};
ghost use Rattle.std.specs.Option.{option_copied, option_map};
ghost use Rattle.text_tokens.specs.Classes.{is_letter, is_white};
ghost use Rattle.page_tokens.specs.HtmlClasses.{has, both_now};
ghost use Rattle.page_tokens.specs.HtmlRuns.{begins_with_letter};
ghost use Rattle.page_tokens.specs.HtmlReading.{after_run, any_case_at, byte_at, name_at, run_of, spaced_byte_at, white_at};

use text_tokens::{is_digit, is_letter, is_white};

/// The classes of bytes of which a page has runs.
#[derive(Clone, Copy, Debug, PartialEq, Eq)]
pub(crate) enum HtmlClass {
    White,
    TagName,
    AttributeName,
    /// The bytes of a value in this quote.
    Value(u8),
    RawText,
}

impl HtmlClass {
    /// Whether the byte is of the class.
    fn has(self, byte: u8) -> bool
        ensures { result ≡ has self byte }
    {
        match self {
            HtmlClass::White => is_white(byte),
            HtmlClass::TagName => is_letter(byte) || is_digit(byte),
            HtmlClass::AttributeName => is_letter(byte) || is_digit(byte) || byte == b'-',
            HtmlClass::Value(quote) => !(byte == b'<' || byte == b'&' || byte == quote),
            HtmlClass::RawText => byte != b'<',
        }
    }
}

/// The bytes of the class at the front, and the rest.
pub(crate) fn run(class: HtmlClass, bytes: &[u8]) -> (&[u8], &[u8])
    ensures front { result.0.now ≡ run_of (has class) bytes.now }
    ensures rest { result.1.now ≡ after_run (has class) bytes.now }
{
    let mut taken = 0;
    'taking: while taken < bytes.len() && class.has(bytes[taken]) {
        taken += 1;
    }
    bytes.split_at(taken)
}

/// The rest after this byte, if it stands first.
#[tactic(auto, unfolding(crate::specs::HtmlReading::byte_at))]
pub(crate) fn after_byte(byte: u8, bytes: &[u8]) -> Option<&[u8]>
    ensures { option_copied result ≡ byte_at byte bytes.now }
{
    let (first, rest) = bytes.split_first()?;
    if *first == byte { Some(rest) } else { None }
}

/// The rest after white space of one byte or more.
#[tactic(auto, unfolding(crate::specs::HtmlReading::white_at))]
pub(crate) fn after_white(bytes: &[u8]) -> Option<&[u8]>
    ensures { option_copied result ≡ white_at bytes.now }
{
    let (first, rest) = bytes.split_first()?;
    if is_white(*first) {
        Some(run(HtmlClass::White, rest).1)
    } else {
        None
    }
}

/// The rest after white space and this byte.
#[tactic(auto, unfolding(crate::specs::HtmlReading::spaced_byte_at))]
pub(crate) fn after_spaced_byte(byte: u8, bytes: &[u8]) -> Option<&[u8]>
    ensures { option_copied result ≡ spaced_byte_at byte bytes.now }
{
    after_byte(byte, run(HtmlClass::White, bytes).1)
}

/// Whether a letter stands first.
fn begins_with_letter(name: &[u8]) -> bool
    ensures { result ≡ begins_with_letter name.now }
{
    match name.first() {
        Some(first) => is_letter(*first),
        None => false,
    }
}

/// The name at the front, a letter and then bytes of the class, and the rest.
#[tactic(auto, unfolding(crate::specs::HtmlReading::name_at))]
pub(crate) fn name(class: HtmlClass, bytes: &[u8]) -> Option<(&[u8], &[u8])>
    ensures { option_map both_now result ≡ name_at (has class) bytes.now }
{
    let (name, rest) = run(class, bytes);
    if begins_with_letter(name) {
        Some((name, rest))
    } else {
        None
    }
}

/// The rest after a word, which stands there in any case.
#[tactic(auto, using(crate::proofs::HtmlRunLemmas::any_case_nothing), unfolding(crate::specs::HtmlReading::any_case_at))]
pub(crate) fn after_any_case<'a>(word: &[u8], bytes: &'a [u8]) -> Option<&'a [u8]>
    ensures { option_copied result ≡ any_case_at word.now bytes.now }
{
    let mut rest = bytes;
    'comparing: for letter in word {
        let (first, more) = rest.split_first()?;
        if first.to_ascii_lowercase() != *letter {
            return None;
        }
        rest = more;
    }
    Some(rest)
}
