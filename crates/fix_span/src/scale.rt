// Numbers in parts of a power of two: quotients rounded down and up.
ghost use Rattle.std.specs.Prelude.{◌≡◌, ◌<◌, ◌≤◌, ◌+◌, ◌*◌, ◌^◌, ◌<ℤ◌, ◌≤ℤ◌, ◌+ℤ◌, ◌*ℤ◌, pos, FitsSigned};
ghost use Rattle.std.specs.Int.{int_div_euclid, w64};
ghost use Rattle.fix_span.specs.Span.{IsFloorIn, ceiling as ceil};

use crate::rounding::{floor_of, rest_of};

/// How many parts of two to a power make one.
pub(crate) fn parts_of(bits: u32) -> i128
    requires { bits ≤ 60 }
    ensures { result ≡ pos (2 ^ bits) }
{
    (1u64 << bits) as i128
}

/// A number in parts of two to a power.
pub(crate) fn raised(n: i64, bits: u32) -> i128
    requires { bits ≤ 60 }
    ensures { result ≡ n *ℤ pos (2 ^ bits) }
{
    n as i128 * parts_of(bits)
}

/// A number that fits 64 bits, in 64 bits.
pub(crate) fn narrow(n: i128) -> i64
    requires { FitsSigned w64 n }
    ensures { result ≡ n }
{
    n as i64
}

/// The ceiling of a quotient.
pub(crate) fn ceiling_of(num: i128, den: i128) -> i128
    requires { pos 0 <ℤ den }
    ensures { result ≡ ceil num den }
{
    let whole = floor_of(num, den);
    if rest_of(num, den) > 0 {
        whole + 1
    } else {
        whole
    }
}

/// The floor and the ceiling of a quotient.
#[derive(Clone, Copy)]
pub(crate) struct Ends {
    pub floor: i64,
    pub ceiling: i64,
}

/// The floor and the ceiling of a quotient in parts of two to a power, by its whole part and what is left of it: so no
/// number is greater than it must be.
pub(crate) fn ends_of(num: i128, den: i128, bits: u32) -> Ends
    requires few { bits ≤ 60 }
    requires positive { pos 0 <ℤ den }
    requires floor_fits { FitsSigned w64 (int_div_euclid (num *ℤ pos (2 ^ bits)) den) }
    requires ceiling_fits { FitsSigned w64 (ceil (num *ℤ pos (2 ^ bits)) den) }
    ensures floor { result.floor ≡ int_div_euclid (num *ℤ pos (2 ^ bits)) den }
    ensures ceiling { result.ceiling ≡ ceil (num *ℤ pos (2 ^ bits)) den }
{
    let low = floor_in(num, den, bits);
    let ceiling = if low.rest > 0 {
        low.floor + 1
    } else {
        low.floor
    };
    Ends {
        floor: low.floor,
        ceiling,
    }
}

/// The floor of a quotient, and what is left beside it.
#[derive(Clone, Copy)]
struct Floor {
    floor: i64,
    rest: u128,
}

/// The floor of a quotient in parts of two to a power.
fn floor_in(num: i128, den: i128, bits: u32) -> Floor
    requires few { bits ≤ 60 }
    requires positive { pos 0 <ℤ den }
    requires fits { FitsSigned w64 (int_div_euclid (num *ℤ pos (2 ^ bits)) den) }
    ensures { IsFloorIn num den (2 ^ bits) result.floor result.rest }
{
    let share = share_beside(num, den, bits);
    Floor {
        floor: joined(floor_of(num, den), share.parts, bits),
        rest: share.rest,
    }
}

/// The parts beside those of a quotient's whole part, and what is left.
fn share_beside(num: i128, den: i128, bits: u32) -> Share
    requires few { bits ≤ 60 }
    requires positive { pos 0 <ℤ den }
    ensures floor { let whole = int_div_euclid num den *ℤ pos (2 ^ bits)
        in IsFloorIn num den (2 ^ bits) (whole +ℤ pos result.parts) result.rest }
    ensures few { result.parts < 2 ^ bits }
{
    let left = natural(rest_of(num, den));
    let size = natural(den);
    share_of(left, size, bits)
}

/// A number that isn't negative, as a natural one.
fn natural(n: i128) -> u128
    requires { pos 0 ≤ℤ n }
    ensures value { pos result ≡ n }
    ensures small { result < 2 ^ 127 }
{
    n as u128
}

/// A whole number and so many parts of two to a power beside it, in such parts.
fn joined(whole: i128, parts: u64, bits: u32) -> i64
    requires few { bits ≤ 60 }
    requires below { parts < 2 ^ bits }
    requires fits { FitsSigned w64 (whole *ℤ pos (2 ^ bits) +ℤ pos parts) }
    ensures { result ≡ whole *ℤ pos (2 ^ bits) +ℤ pos parts }
{
    (whole * parts_of(bits) + parts as i128) as i64
}

/// So many parts of a number that is less than another, and what is left.
#[derive(Clone, Copy)]
struct Share {
    parts: u64,
    rest: u128,
}

/// A number below another divided by it, in parts of two to a power.
fn share_of(num: u128, den: u128, bits: u32) -> Share
    requires few { bits ≤ 60 }
    requires below { num < den }
    requires room { den < 2 ^ 127 }
    ensures whole { result.parts * den + result.rest ≡ num * 2 ^ bits }
    ensures below { result.rest < den }
    ensures few { result.parts < 2 ^ bits }
{
    let mut share = Share {
        parts: 0,
        rest: num,
    };
    'halving: for _ in 0..bits {
        share = halved(share, den);
    }
    share
}

/// The same number in parts of half the size.
fn halved(share: Share, den: u128) -> Share
    requires room { share.parts < 2 ^ 62 }
    requires below { share.rest < den }
    requires small { den < 2 ^ 127 }
    ensures whole { result.parts * den + result.rest ≡ 2 * (share.parts * den + share.rest) }
    ensures below { result.rest < den }
    ensures few { result.parts ≤ 2 * share.parts + 1 }
{
    let rest = 2 * share.rest;
    if rest < den {
        Share {
            parts: 2 * share.parts,
            rest,
        }
    } else {
        Share {
            parts: 2 * share.parts + 1,
            rest: rest - den,
        }
    }
}
