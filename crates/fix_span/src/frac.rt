// Fractions, which are numbers that hold a single point.
ghost use Rattle.std.specs.Prelude.{◌≡◌, ◌+ℤ◌, ◌-ℤ◌, ◌*ℤ◌, FitsSigned};
ghost use Rattle.std.specs.Int.{w128};

use crate::encloses::Encloses;
use crate::loose::Loose;
use crate::rounding::half_up_of;
use std::ops::{Add, Mul, Sub};

/// A fraction, `num / den`. A fraction that stands for a number has a positive `den`; it need not be in least terms.
#[derive(Clone, Copy, Debug, PartialEq, Eq)]
pub struct Frac {
    pub num: i128,
    pub den: i128,
}

impl Add for Frac {
    ghost use Rattle.fix_span.specs.Frac.{sum, Fits};

    type Output = Frac;

    ghost can_add = { λ x y. Fits (sum x y) };

    ghost add_gives = { λ x y r. r ≡ sum x y };

    fn add(self, rhs: Frac) -> Frac {
        Frac {
            num: cross_sum(self.num, self.den, rhs.num, rhs.den),
            den: self.den * rhs.den,
        }
    }
}

impl Sub for Frac {
    ghost use Rattle.fix_span.specs.Frac.{difference, Fits};

    type Output = Frac;

    ghost can_sub = { λ x y. Fits (difference x y) };

    ghost sub_gives = { λ x y r. r ≡ difference x y };

    fn sub(self, rhs: Frac) -> Frac {
        Frac {
            num: cross_difference(self.num, self.den, rhs.num, rhs.den),
            den: self.den * rhs.den,
        }
    }
}

impl Mul for Frac {
    ghost use Rattle.fix_span.specs.Frac.{product, Fits};

    type Output = Frac;

    ghost can_mul = { λ x y. Fits (product x y) };

    ghost mul_gives = { λ x y r. r ≡ product x y };

    fn mul(self, rhs: Frac) -> Frac {
        Frac {
            num: self.num * rhs.num,
            den: self.den * rhs.den,
        }
    }
}

impl Encloses for Frac {
    ghost use Rattle.fix_span.specs.Frac.{IsNumber, CanRound, whole_frac, half_up};
    ghost use Rattle.fix_span.specs.FracLaws as laws;

    ghost holds = { λ x p. IsNumber x p };

    ghost can_be_whole = { λ n. Unit {0} };

    ghost whole_gives = { λ n x. x ≡ whole_frac n };

    ghost can_round = { λ x unit. CanRound x unit };

    ghost round_gives = { λ x unit r. r ≡ record { lo = half_up x unit; hi = half_up x unit } };

    fn whole(n: i64) -> Frac {
        Frac {
            num: n as i128,
            den: 1,
        }
    }

    fn round_half_up(self, unit: u32) -> Loose {
        let value = half_up_of(self, unit) as i32;
        Loose {
            lo: value,
            hi: value,
        }
    }

    ghost whole_holds = { laws.IsNumber-whole };

    ghost sum_holds = { laws.IsNumber-sum };

    ghost difference_holds = { laws.IsNumber-difference };

    ghost product_holds = { laws.IsNumber-product };

    ghost least_rounding = { laws.least_rounding };

    ghost greatest_rounding = { laws.greatest_rounding };
}

// The two numerators of fractions over their common denominator, added or subtracted. The products wrap, since they
// may be past 128 bits where the result is not.

/// The sum of the numerators over the common denominator.
fn cross_sum(num: i128, den: i128, other_num: i128, other_den: i128) -> i128
    requires { FitsSigned w128 (num *ℤ other_den +ℤ other_num *ℤ den) }
    ensures { result ≡ num *ℤ other_den +ℤ other_num *ℤ den }
{
    let first = num.wrapping_mul(other_den);
    let second = other_num.wrapping_mul(den);
    first.wrapping_add(second)
}

/// Their difference.
fn cross_difference(num: i128, den: i128, other_num: i128, other_den: i128) -> i128
    requires { FitsSigned w128 (num *ℤ other_den -ℤ other_num *ℤ den) }
    ensures { result ≡ num *ℤ other_den -ℤ other_num *ℤ den }
{
    let first = num.wrapping_mul(other_den);
    let second = other_num.wrapping_mul(den);
    first.wrapping_sub(second)
}
