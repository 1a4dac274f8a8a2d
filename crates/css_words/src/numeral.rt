// A number of style text in its parts, and its value.
ghost use Rattle.std.specs.Prelude.{◌≡◌, ◌≤◌, IfSome, option_map};
ghost use Rattle.style_tokens.specs.CssReading.{after_fraction};
ghost use Rattle.css_words.specs.Numerals.{amount, fraction_of, is_nought, is_zero, lone_number, number_at};
ghost use Rattle.css_words.specs.Numerals.{number_of, numeral, share_at, share_of};
ghost use Rattle.css_words.specs.Numerals.{unsigned_of, whole_at, whole_of};
ghost use Rattle.css_words.specs.NumeralViews.{seen};
ghost use Rattle.css_words.specs.Words.{words};
ghost use Rattle.std.specs.List.{list_all};

use crate::digits::{digits_value, scaled, split_digits};
use crate::word::{lone_number_text, number_text_at};
use style_tokens::CssToken;
use text_tokens::is_digit;

/// A number in its parts: whether it has a sign, whether that is `-`, its digits before and behind the point, and its unit.
#[derive(Clone, Copy)]
pub struct Number<'a> {
    pub signed: bool,
    pub negative: bool,
    pub whole: &'a [u8],
    pub fraction: &'a [u8],
    pub unit: &'a [u8],
}

/// The digits behind a point at the front, and the bytes behind them; no digits, where no such stand there.
#[derive(Clone, Copy)]
struct Fraction<'a> {
    digits: &'a [u8],
    rest: &'a [u8],
}

/// A point with digits at the front, or nothing.
#[tactic(auto, unfolding(crate::specs::Numerals::fraction_of, style_tokens::specs::CssReading::after_fraction, style_tokens::specs::CssReading::run_at))]
fn split_fraction(bytes: &[u8]) -> Fraction<'_>
    ensures digits { result.digits.now ≡ fraction_of bytes.now }
    ensures rest { result.rest.now ≡ after_fraction bytes.now }
{
    let none = Fraction {
        digits: &[],
        rest: bytes,
    };
    let Some((first, behind)) = bytes.split_first() else {
        return none;
    };
    if *first != b'.' {
        return none;
    }
    let Some((digit, _)) = behind.split_first() else {
        return none;
    };
    if !is_digit(*digit) {
        return none;
    }
    let split = split_digits(behind);
    Fraction {
        digits: split.digits,
        rest: split.rest,
    }
}

/// The number behind a sign.
#[tactic(auto, unfolding(crate::specs::Numerals::unsigned_of))]
fn unsigned_of(signed: bool, negative: bool, bytes: &[u8]) -> Number<'_>
    ensures { seen result ≡ unsigned_of signed negative bytes.now }
{
    let whole = split_digits(bytes);
    let fraction = split_fraction(whole.rest);
    Number {
        signed,
        negative,
        whole: whole.digits,
        fraction: fraction.digits,
        unit: fraction.rest,
    }
}

/// A number in its parts.
#[tactic(auto, unfolding(crate::specs::Numerals::numeral))]
fn numeral(bytes: &[u8]) -> Number<'_>
    ensures { seen result ≡ numeral bytes.now }
{
    match bytes.split_first() {
        None => unsigned_of(false, false, bytes),
        Some((b'+', rest)) => unsigned_of(true, false, rest),
        Some((b'-', rest)) => unsigned_of(true, true, rest),
        Some(_) => unsigned_of(false, false, bytes),
    }
}

/// A number, which has a digit.
#[tactic(auto, unfolding(crate::specs::Numerals::number_of))]
fn number_of(bytes: &[u8]) -> Option<Number<'_>>
    ensures { option_map seen result ≡ number_of bytes.now }
{
    let number = numeral(bytes);
    if number.whole.is_empty() && number.fraction.is_empty() {
        None
    } else {
        Some(number)
    }
}

/// A number at the front, and the tokens behind it.
#[tactic(auto, unfolding(crate::specs::Numerals::number_at))]
pub fn number_at<'a>(text: &'a [u8], tokens: &'a [CssToken]) -> Option<(Number<'a>, &'a [CssToken])>
    ensures { option_map (λ f. (seen f.0, words text.now f.1.now)) result ≡ number_at (words text.now tokens.now) }
{
    let (bytes, rest) = number_text_at(text, tokens)?;
    let number = number_of(bytes)?;
    Some((number, rest))
}

/// A lone number.
#[tactic(auto, unfolding(crate::specs::Numerals::lone_number))]
pub fn lone_number<'a>(text: &'a [u8], tokens: &[CssToken]) -> Option<Number<'a>>
    ensures { option_map seen result ≡ lone_number (words text.now tokens.now) }
{
    number_of(lone_number_text(text, tokens)?)
}

/// How many parts of ten to the places a number has, without its sign; `None`, where it has more than nine digits
/// before the point or more than so many behind it.
#[tactic(auto, unfolding(crate::specs::Numerals::amount))]
pub fn amount(places: usize, number: Number<'_>) -> Option<u64>
    requires { places ≤ 3 }
    ensures amount { result ≡ amount places (seen number.entry) }
    ensures small { IfSome result (λ a. a ≤ 8000000000000) }
{
    if number.whole.len() > 9 || number.fraction.len() > places {
        return None;
    }
    let whole = scaled(digits_value(number.whole), places);
    let fraction = scaled(
        digits_value(number.fraction),
        places - number.fraction.len(),
    );
    Some(whole + fraction)
}

/// Whether all digits are 0.
fn all_nought(digits: &[u8]) -> bool
    ensures { result ≡ list_all is_nought digits.now }
{
    let mut rest = digits;
    'digits: while let Some((first, more)) = rest.split_first() {
        if *first != b'0' {
            return false;
        }
        rest = more;
    }
    true
}

/// Whether a number's value is 0.
#[tactic(auto, unfolding(crate::specs::Numerals::is_zero))]
pub fn is_zero(number: Number<'_>) -> bool
    ensures { result ≡ is_zero (seen number.entry) }
{
    number.whole.len() <= 9 && all_nought(number.whole) && all_nought(number.fraction)
}

/// A number without sign, unit and point.
#[tactic(auto, unfolding(crate::specs::Numerals::whole_of))]
pub fn whole_of(number: Number<'_>) -> Option<u64>
    ensures whole { result ≡ whole_of (seen number.entry) }
    ensures small { IfSome result (λ a. a ≤ 8000000000000) }
{
    if number.signed || !number.unit.is_empty() {
        None
    } else {
        amount(0, number)
    }
}

/// A whole number without sign, unit and point, and the tokens behind it.
#[tactic(auto, unfolding(crate::specs::Numerals::whole_at))]
pub fn whole_at<'a>(text: &'a [u8], tokens: &'a [CssToken]) -> Option<(u64, &'a [CssToken])>
    ensures { option_map (λ f. (f.0, words text.now f.1.now)) result ≡ whole_at (words text.now tokens.now) }
{
    let (number, rest) = number_at(text, tokens)?;
    let whole = whole_of(number)?;
    Some((whole, rest))
}

/// The thousandths of a number without unit and with three decimals at most, held to 0 and 1.
#[tactic(auto, unfolding(crate::specs::Numerals::share_of))]
pub fn share_of(number: Number<'_>) -> Option<u16>
    ensures share { result ≡ share_of (seen number.entry) }
    ensures small { IfSome result (λ n. n ≤ 1000) }
{
    if !number.unit.is_empty() {
        return None;
    }
    let size = amount(3, number)?;
    if number.negative {
        Some(0)
    } else {
        Some(size.min(1000) as u16)
    }
}

/// The thousandths of such a number, and the tokens behind it.
#[tactic(auto, unfolding(crate::specs::Numerals::share_at))]
pub fn share_at<'a>(text: &'a [u8], tokens: &'a [CssToken]) -> Option<(u16, &'a [CssToken])>
    ensures { option_map (λ f. (f.0, words text.now f.1.now)) result ≡ share_at (words text.now tokens.now) }
{
    let (number, rest) = number_at(text, tokens)?;
    let share = share_of(number)?;
    Some((share, rest))
}
