// The least and the greatest product or quotient of one of two numbers and one of two others.
ghost use Rattle.std.specs.Prelude.{◌≡◌, ◌<ℤ◌, ◌≤ℤ◌, ◌*ℤ◌, pos};
ghost use Rattle.std.specs.Int.{int_div_euclid};
ghost use Rattle.fix_span.specs.Span.{ceiling, greatest_of, least_of};

use crate::rounding::floor_of;
use crate::scale::ceiling_of;

/// The least of four numbers.
fn least_of(a: i128, b: i128, c: i128, d: i128) -> i128
    ensures { result ≡ least_of a b c d }
{
    a.min(b).min(c.min(d))
}

/// The greatest of four numbers.
fn greatest_of(a: i128, b: i128, c: i128, d: i128) -> i128
    ensures { result ≡ greatest_of a b c d }
{
    a.max(b).max(c.max(d))
}

/// The product of two numbers.
fn times(a: i64, b: i64) -> i128
    ensures { result ≡ a *ℤ b }
{
    a as i128 * b as i128
}

/// The least product of one of two numbers with one of two others.
pub(crate) fn least_product(lo: i64, hi: i64, low: i64, high: i64) -> i128
    ensures { result ≡ least_of (lo *ℤ low) (lo *ℤ high) (hi *ℤ low) (hi *ℤ high) }
{
    least_of(
        times(lo, low),
        times(lo, high),
        times(hi, low),
        times(hi, high),
    )
}

/// The greatest one.
pub(crate) fn greatest_product(lo: i64, hi: i64, low: i64, high: i64) -> i128
    ensures { result ≡ greatest_of (lo *ℤ low) (lo *ℤ high) (hi *ℤ low) (hi *ℤ high) }
{
    greatest_of(
        times(lo, low),
        times(lo, high),
        times(hi, low),
        times(hi, high),
    )
}

/// The floor of the least quotient of one of two numbers by one of two others.
pub(crate) fn least_quotient(lo: i128, hi: i128, low: i128, high: i128) -> i128
    requires positive { pos 0 <ℤ low }
    requires ordered { low ≤ℤ high }
    ensures { result ≡ least_of (int_div_euclid lo low) (int_div_euclid lo high)
        (int_div_euclid hi low) (int_div_euclid hi high) }
{
    least_of(
        floor_of(lo, low),
        floor_of(lo, high),
        floor_of(hi, low),
        floor_of(hi, high),
    )
}

/// The ceiling of the greatest one.
pub(crate) fn greatest_quotient(lo: i128, hi: i128, low: i128, high: i128) -> i128
    requires positive { pos 0 <ℤ low }
    requires ordered { low ≤ℤ high }
    ensures { result ≡ greatest_of (ceiling lo low) (ceiling lo high) (ceiling hi low) (ceiling hi high) }
{
    greatest_of(
        ceiling_of(lo, low),
        ceiling_of(lo, high),
        ceiling_of(hi, low),
        ceiling_of(hi, high),
    )
}
