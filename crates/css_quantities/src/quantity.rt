// Lengths, times, percentages and plain numbers.
ghost use Rattle.std.specs.Prelude.{◌≡◌, ◌≤◌, ◌<◌, ◌^◌, IfOk, codes, false, pos};
ghost use Rattle.page_model.specs.ValidScene.{IsBetween, IsExtent, IsPosition};
ghost use Rattle.css_words.specs.NumeralViews.{seen};
ghost use Rattle.css_quantities.specs.Quantities.{count_of, duration_of, is_nothing, length_of, length_size, opacity_of};
ghost use Rattle.css_quantities.specs.Quantities.{percentage_of, size_of, time_of, time_size, within, z_index_of};
ghost use Rattle.css_words.specs.Numerals.{signed_int};
ghost use Rattle.css_quantities.specs.ValidQuantities.{IsLevel, IsTime};
ghost use Rattle.css_words.specs.Words.{words};

use css_words::{Number, ValueFault, amount, is_keyword, is_lone, is_zero, lone_number, share_of};
use page_model::Count;
use style_tokens::CssToken;

/// Hundredths of a pixel: 8,192 px.
const MOST_LENGTH: u32 = 819_200;

/// Milliseconds: 100 s.
const MOST_TIME: u32 = 100_000;

/// The greatest `z-index`.
const MOST_Z: u32 = 1_000_000;

/// Thousandths: 10,000 iterations.
const MOST_COUNT: u32 = 10_000_000;

/// A number that may be negative or not, and has a limit.
#[tactic(auto, unfolding(crate::specs::Quantities::within))]
fn within(signed: bool, limit: u32, negative: bool, size: u64) -> Result<u32, ValueFault>
    ensures exact { result ≡ within signed limit negative size }
    ensures small { IfOk result (λ n. n ≤ limit) }
{
    if negative && !signed && size != 0 {
        Err(ValueFault::BadValue)
    } else if size > u64::from(limit) {
        Err(ValueFault::OverLimit)
    } else {
        Ok(size as u32)
    }
}

/// The size of a number in parts of ten to the places.
#[tactic(auto, unfolding(crate::specs::Quantities::size_of))]
fn size_of(places: usize, signed: bool, limit: u32, number: Number<'_>) -> Result<u32, ValueFault>
    requires { places ≤ 3 }
    ensures exact { result ≡ size_of places signed limit (seen number.entry) }
    ensures small { IfOk result (λ n. n ≤ limit) }
{
    match amount(places, number) {
        Some(size) => within(signed, limit, number.negative, size),
        None => Err(ValueFault::BadValue),
    }
}

/// A signed number of a size.
fn signed_int(negative: bool, size: u32) -> i32
    requires { size < 2 ^ 31 }
    ensures { result ≡ signed_int negative size }
{
    if negative {
        -(size as i32)
    } else {
        size as i32
    }
}

/// The size of a length in hundredths of a pixel.
#[tactic(auto, unfolding(crate::specs::Quantities::length_size))]
fn length_size(signed: bool, number: Number<'_>) -> Result<u32, ValueFault>
    ensures exact { result ≡ length_size signed (seen number.entry) }
    ensures small { IfOk result (λ n. n ≤ MOST_LENGTH) }
{
    if is_keyword(b"px", number.unit) {
        return size_of(2, signed, MOST_LENGTH, number);
    }
    if !number.unit.is_empty() {
        return Err(ValueFault::BadValue);
    }
    if is_zero(number) {
        Ok(0)
    } else {
        Err(ValueFault::BadValue)
    }
}

/// A length in hundredths of a pixel: CSS Values and Units Module Level 3. A negative one spells none, where it isn't
/// to be signed.
pub fn length(text: &[u8], tokens: &[CssToken], signed: bool) -> Result<i32, ValueFault>
    ensures exact { result ≡ length_of signed (words text.now tokens.now) }
    ensures position { IfOk result IsPosition }
    ensures extent { signed ≡ false → IfOk result IsExtent }
{
    signed_length(text, tokens, signed)
}

/// A length.
#[tactic(auto, unfolding(crate::specs::Quantities::length_of))]
fn signed_length(text: &[u8], tokens: &[CssToken], signed: bool) -> Result<i32, ValueFault>
    ensures { result ≡ length_of signed (words text.now tokens.now) }
{
    let Some(number) = lone_number(text, tokens) else {
        return Err(ValueFault::BadValue);
    };
    match length_size(signed, number) {
        Ok(size) => Ok(signed_int(number.negative, size)),
        Err(fault) => Err(fault),
    }
}

/// The size of a time in milliseconds.
#[tactic(auto, unfolding(crate::specs::Quantities::time_size))]
fn time_size(signed: bool, number: Number<'_>) -> Result<u32, ValueFault>
    ensures exact { result ≡ time_size signed (seen number.entry) }
    ensures small { IfOk result (λ n. n ≤ MOST_TIME) }
{
    if is_keyword(b"s", number.unit) {
        size_of(3, signed, MOST_TIME, number)
    } else if is_keyword(b"ms", number.unit) {
        size_of(0, signed, MOST_TIME, number)
    } else {
        Err(ValueFault::BadValue)
    }
}

/// A time in milliseconds. A negative one spells none, where it isn't to be signed.
pub fn time(text: &[u8], tokens: &[CssToken], signed: bool) -> Result<i32, ValueFault>
    ensures exact { result ≡ time_of signed (words text.now tokens.now) }
    ensures valid { IfOk result IsTime }
    ensures early { signed ≡ false → IfOk result (λ v. IsBetween (pos 0) (pos 100000) v) }
{
    signed_time(text, tokens, signed)
}

/// A time.
#[tactic(auto, unfolding(crate::specs::Quantities::time_of))]
fn signed_time(text: &[u8], tokens: &[CssToken], signed: bool) -> Result<i32, ValueFault>
    ensures { result ≡ time_of signed (words text.now tokens.now) }
{
    let Some(number) = lone_number(text, tokens) else {
        return Err(ValueFault::BadValue);
    };
    match time_size(signed, number) {
        Ok(size) => Ok(signed_int(number.negative, size)),
        Err(fault) => Err(fault),
    }
}

/// A time that isn't negative, in milliseconds.
#[tactic(auto, unfolding(crate::specs::Quantities::duration_of))]
pub fn duration(text: &[u8], tokens: &[CssToken]) -> Result<u32, ValueFault>
    ensures { result ≡ duration_of (words text.now tokens.now) }
{
    match lone_number(text, tokens) {
        Some(number) => time_size(false, number),
        None => Err(ValueFault::BadValue),
    }
}

/// A percentage in hundredths of a percent, of any size.
#[tactic(auto, unfolding(crate::specs::Quantities::percentage_of))]
pub fn percentage(text: &[u8], tokens: &[CssToken]) -> Result<i64, ValueFault>
    ensures { result ≡ percentage_of (words text.now tokens.now) }
{
    let Some(number) = lone_number(text, tokens) else {
        return Err(ValueFault::BadValue);
    };
    if !is_keyword(b"%", number.unit) {
        return Err(ValueFault::BadValue);
    }
    match amount(2, number) {
        Some(size) if number.negative => Ok(-(size as i64)),
        Some(size) => Ok(size as i64),
        None => Err(ValueFault::BadValue),
    }
}

/// An opacity in thousandths, held to 0 and 1: CSS Color Module Level 3.
pub fn opacity(text: &[u8], tokens: &[CssToken]) -> Result<u16, ValueFault>
    ensures exact { result ≡ opacity_of (words text.now tokens.now) }
    ensures valid { IfOk result (λ n. n ≤ 1000) }
{
    held_opacity(text, tokens)
}

/// An opacity.
#[tactic(auto, unfolding(crate::specs::Quantities::opacity_of))]
fn held_opacity(text: &[u8], tokens: &[CssToken]) -> Result<u16, ValueFault>
    ensures { result ≡ opacity_of (words text.now tokens.now) }
{
    match lone_number(text, tokens) {
        Some(number) => share_of(number).ok_or(ValueFault::BadValue),
        None => Err(ValueFault::BadValue),
    }
}

/// A `z-index`; `auto` is 0.
pub fn z_index(text: &[u8], tokens: &[CssToken]) -> Result<i32, ValueFault>
    ensures exact { result ≡ z_index_of (words text.now tokens.now) }
    ensures valid { IfOk result IsLevel }
{
    level(text, tokens)
}

/// A `z-index`.
#[tactic(auto, unfolding(crate::specs::Quantities::z_index_of))]
fn level(text: &[u8], tokens: &[CssToken]) -> Result<i32, ValueFault>
    ensures { result ≡ z_index_of (words text.now tokens.now) }
{
    if is_lone(b"auto", text, tokens) {
        return Ok(0);
    }
    let Some(number) = lone_number(text, tokens) else {
        return Err(ValueFault::BadValue);
    };
    if !number.unit.is_empty() {
        return Err(ValueFault::BadValue);
    }
    match size_of(0, true, MOST_Z, number) {
        Ok(size) => Ok(signed_int(number.negative, size)),
        Err(fault) => Err(fault),
    }
}

/// How often an animation runs.
#[tactic(auto, unfolding(crate::specs::Quantities::count_of))]
pub fn count(text: &[u8], tokens: &[CssToken]) -> Result<Count, ValueFault>
    ensures { result ≡ count_of (words text.now tokens.now) }
{
    if is_lone(b"infinite", text, tokens) {
        return Ok(Count::Infinite);
    }
    let Some(number) = lone_number(text, tokens) else {
        return Err(ValueFault::BadValue);
    };
    if !number.unit.is_empty() {
        return Err(ValueFault::BadValue);
    }
    match size_of(3, false, MOST_COUNT, number) {
        Ok(size) => Ok(Count::Times(size)),
        Err(fault) => Err(fault),
    }
}

/// Whether a number of value 0 stands there, without unit or with `px`.
#[tactic(auto, unfolding(crate::specs::Quantities::is_nothing))]
pub fn is_nothing(text: &[u8], tokens: &[CssToken]) -> bool
    ensures { result ≡ is_nothing (words text.now tokens.now) }
{
    match lone_number(text, tokens) {
        Some(number) => is_zero(number)
            && (number.unit.is_empty() || is_keyword(b"px", number.unit)),
        None => false,
    }
}
