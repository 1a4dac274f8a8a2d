// Numbers between two ends, in parts of a power of two.
ghost use Rattle.std.specs.Prelude.{◌≤◌, ◌<ℤ◌, ◌≤ℤ◌, ◌≡◌, pos};
ghost use Rattle.fix_span.specs.Frac.{IsNumber};
ghost use Rattle.fix_span.specs.Rational.{Rational};
ghost use Rattle.fix_span.specs.Span.{Fits, Holds, frac_span, quotient, quotient_of, widened};

use crate::corners::{greatest_quotient, least_quotient};
use crate::frac::Frac;
use crate::rounding::floor_of;
use crate::scale::{ceiling_of, ends_of, narrow, parts_of, raised};

/// The numbers between two ends, `lo <= hi`, in parts of 2^F.
#[derive(Clone, Copy, Debug, PartialEq, Eq)]
pub struct Span<const F: u32> {
    pub lo: i64,
    pub hi: i64,
}

impl<const F: u32> Span<F> {
    /// The floor and the ceiling of a fraction, in parts of 2^F.
    pub fn of_frac(x: Frac) -> Span<F>
        requires few { F ≤ 60 }
        requires positive { pos 0 <ℤ x.den }
        requires fits { Fits F (frac_span F x) }
        ensures ends { result ≡ frac_span F x }
        ensures encloses { (p : Rational) → IsNumber x p → Holds F result p }
    {
        let ends = ends_of(x.num, x.den, F);
        Span {
            lo: ends.floor,
            hi: ends.ceiling,
        }
    }

    /// The floor of the least and the ceiling of the greatest quotient of two ends, in parts of 2^F, where the other
    /// number is positive.
    pub fn div_pos(self, other: Span<F>) -> Span<F>
        requires few { F ≤ 60 }
        requires positive { pos 0 <ℤ other.lo }
        requires ordered { other.lo ≤ℤ other.hi }
        requires fits { Fits F (quotient F self other) }
        ensures ends { result ≡ quotient F self.entry other.entry }
        ensures encloses { (p q : Rational) → Holds F self.entry p → Holds F other.entry q → Holds F result (quotient_of p q) }
    {
        let lo = raised(self.lo, F);
        let hi = raised(self.hi, F);
        let low = other.lo as i128;
        let high = other.hi as i128;
        Span {
            lo: narrow(least_quotient(lo, hi, low, high)),
            hi: narrow(greatest_quotient(lo, hi, low, high)),
        }
    }

    /// The same numbers in parts of 2^G: the floor of the lower end and the ceiling of the upper one.
    pub fn widen<const G: u32>(self) -> Span<G>
        requires few { F ≤ 60 }
        requires other_few { G ≤ 60 }
        requires fits { Fits G (widened F G self) }
        ensures ends { result ≡ widened F G self.entry }
        ensures encloses { (p : Rational) → Holds F self.entry p → Holds G result p }
    {
        Span {
            lo: narrow(floor_of(raised(self.lo, G), parts_of(F))),
            hi: narrow(ceiling_of(raised(self.hi, G), parts_of(F))),
        }
    }
}
