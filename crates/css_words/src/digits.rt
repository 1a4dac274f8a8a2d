// Digits and their value.
ghost use Rattle.std.specs.Prelude.{◌≡◌, ◌*◌, ◌+◌, ◌<◌, ◌≤◌, ◌^◌, length};
ghost use Rattle.std.specs.Char.{digit_value};
ghost use Rattle.std.specs.Str.Parse.{digits_value};
ghost use Rattle.text_tokens.specs.Classes.{is_digit};
ghost use Rattle.style_tokens.specs.CssReading.{skip};
ghost use Rattle.css_words.specs.Numerals.{digits};

use text_tokens::is_digit;

/// The digits at the front of some bytes, and the bytes behind them.
#[derive(Clone, Copy)]
pub struct Split<'a> {
    pub digits: &'a [u8],
    pub rest: &'a [u8],
}

/// The bytes behind the digits at the front.
fn skip_digits(bytes: &[u8]) -> &[u8]
    ensures rest { result.now ≡ skip is_digit bytes.now }
    ensures shorter { length result.now ≤ length bytes.now }
{
    let mut rest = bytes;
    'digits: while let Some((first, more)) = rest.split_first() {
        if !is_digit(*first) {
            return rest;
        }
        rest = more;
    }
    rest
}

/// The digits at the front, and the bytes behind them.
pub fn split_digits(bytes: &[u8]) -> Split<'_>
    ensures digits { result.digits.now ≡ digits bytes.now }
    ensures rest { result.rest.now ≡ skip is_digit bytes.now }
{
    let rest = skip_digits(bytes);
    let digits = &bytes[..bytes.len() - rest.len()];
    Split { digits, rest }
}

/// The value of a digit or letter as a digit, and 36 of another byte.
pub fn digit_value(byte: u8) -> u8
    ensures value { result ≡ digit_value byte }
    ensures small { result ≤ 36 }
{
    match byte {
        b'0'..=b'9' => byte - b'0',
        b'A'..=b'Z' => byte - b'A' + 10,
        b'a'..=b'z' => byte - b'a' + 10,
        _ => 36,
    }
}

/// The number that nine digits at most write.
pub fn digits_value(digits: &[u8]) -> u64
    requires { length digits.now ≤ 9 }
    ensures value { result ≡ digits_value 10 digits.now }
    ensures small { result ≤ 4000000000 }
{
    let mut value = 0;
    let mut rest = digits;
    'digits: while let Some((first, more)) = rest.split_first() {
        value = value * 10 + u64::from(digit_value(*first));
        rest = more;
    }
    value
}

/// A number with some zeros behind it.
pub fn scaled(value: u64, places: usize) -> u64
    requires small { value ≤ 4000000000 }
    requires few { places ≤ 3 }
    ensures value { result ≡ value * 10 ^ places }
    ensures bound { result ≤ 4000000000000 }
{
    match places {
        0 => value,
        1 => value * 10,
        2 => value * 100,
        _ => value * 1000,
    }
}
