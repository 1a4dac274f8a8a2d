// The offsets of keyframes.
ghost use Rattle.std.specs.Prelude.{◌≡◌, ◌&&◌};
ghost use Rattle.css_quantities.specs.Quantities.{percentage_of};
ghost use Rattle.css_words.specs.Words.{words};
ghost use Rattle.css_declarations.specs.DeclarationReading.{shown};
ghost use Rattle.css_parts.specs.KeyframeGrammar.{ends_with_percent, is_percentage, measured, said_at, within_set};

use crate::tokens::{is_number, is_word};
use css_declarations::{SheetFault, token_text};
use css_values::percentage;
use style_tokens::CssToken;

/// Whether bytes end with a `%`.
fn ends_with_percent(bytes: &[u8]) -> bool
    ensures { result ≡ ends_with_percent bytes.now }
{
    let mut rest = bytes;
    'seeking: while let Some((first, more)) = rest.split_first() {
        if more.is_empty() {
            return *first == b'%';
        }
        rest = more;
    }
    false
}

/// Whether a token is a percentage.
fn is_percentage(text: &[u8], token: CssToken) -> bool
    ensures { result ≡ is_percentage text.now token }
{
    is_number(token.kind) && ends_with_percent(token_text(text, token))
}

/// An offset from 0% to 100%, and the tokens behind it.
fn within_set(at: u32, rest: &[CssToken], hundredths: i64) -> Result<(u16, &[CssToken]), SheetFault>
    ensures { shown (λ f. (f.0, f.1.now)) result ≡ within_set at rest.now hundredths }
{
    if hundredths < 0 || hundredths > 10000 {
        return Err(SheetFault::BadKeyframes { at });
    }
    Ok((hundredths as u16, rest))
}

/// The offset of a percentage, and the tokens behind it.
fn measured_at<'a>(
    text: &[u8],
    at: u32,
    tokens: &'a [CssToken],
    rest: &'a [CssToken],
) -> Result<(u16, &'a [CssToken]), SheetFault>
    ensures { shown (λ f. (f.0, f.1.now)) result ≡ measured at rest.now (percentage_of (words text.now tokens.now)) }
{
    match percentage(text, tokens) {
        Ok(hundredths) => within_set(at, rest, hundredths),
        Err(_) => Err(SheetFault::BadValue { at }),
    }
}

/// An offset as it is said, and the tokens behind it.
#[tactic(auto, unfolding(crate::specs::KeyframeGrammar::said_at))]
pub fn said_at<'a>(
    text: &[u8],
    end: u32,
    tokens: &'a [CssToken],
) -> Result<(u16, &'a [CssToken]), SheetFault>
    ensures { shown (λ f. (f.0, f.1.now)) result ≡ said_at text.now end tokens.now }
{
    let Some((first, rest)) = tokens.split_first() else {
        return Err(SheetFault::BadSheet { at: end });
    };
    let at = first.place.from;
    if is_word(b"from", text, *first) {
        return Ok((0, rest));
    }
    if is_word(b"to", text, *first) {
        return Ok((10000, rest));
    }
    if is_percentage(text, *first) {
        return measured_at(text, at, &tokens[..1], rest);
    }
    Err(SheetFault::BadSheet { at })
}
