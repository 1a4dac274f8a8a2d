// Numbers that are known exactly or between two ends, and the value on the way from one to another.
ghost use Rattle.std.specs.Prelude.{ℕ, ℤ, ◌<◌, ◌≤ℤ◌};
ghost use Rattle.fix_span.specs.declared.loose.Loose.{Loose as Whole};
ghost use Rattle.fix_span.specs.Rational.{Rational, whole_point, sum_of, difference_of, product_of, mixed_of};
ghost use Rattle.fix_span.specs.Rounding.{IsRounded};

use crate::loose::Loose;
use std::ops::{Add, Mul, Sub};

/// A number that holds rational points: one if it is exact, or those between two ends.
pub trait Encloses: Copy + Add<Output = Self> + Sub<Output = Self> + Mul<Output = Self> {
    // a point lies in a number
    ghost holds: { Self → Rational → Type 0 };

    // the whole number has a number of this kind, and which one it is
    ghost can_be_whole: { ℤ → Type 0 };

    ghost whole_gives: { ℤ → Self → Type 0 };

    // the number can be rounded in a unit, and what that gives
    ghost can_round: { Self → ℕ → Type 0 };

    ghost round_gives: { Self → ℕ → Whole → Type 0 };

    /// The number that is exactly `n`.
    fn whole(n: i64) -> Self
        requires { can_be_whole n }
        ensures { whole_gives n result };

    /// The least and the greatest whole number that a point of this number, divided by `unit`, rounds to: half up,
    /// which is the floor of the quotient plus one half.
    fn round_half_up(self, unit: u32) -> Loose
        requires { can_round self unit }
        ensures { round_gives self unit result };

    // the laws
    ghost whole_holds: { (n : ℤ) (x : Self) → whole_gives n x → holds x (whole_point n) };

    ghost sum_holds: { (x y r : Self) (p q : Rational)
        → Self.add_gives x y r → holds x p → holds y q → holds r (sum_of p q) };

    ghost difference_holds: { (x y r : Self) (p q : Rational)
        → Self.sub_gives x y r → holds x p → holds y q → holds r (difference_of p q) };

    ghost product_holds: { (x y r : Self) (p q : Rational)
        → Self.mul_gives x y r → holds x p → holds y q → holds r (product_of p q) };

    ghost least_rounding: { (x : Self) (unit : ℕ) (r : Whole) (p : Rational) (v : ℤ)
        → 0 < unit → round_gives x unit r → holds x p → IsRounded p unit v → r.lo ≤ℤ v };

    ghost greatest_rounding: { (x : Self) (unit : ℕ) (r : Whole) (p : Rational) (v : ℤ)
        → 0 < unit → round_gives x unit r → holds x p → IsRounded p unit v → v ≤ℤ r.hi };
}

/// The value on the way from one number to another, `at` of the way: `from + (to - from) * at`.
///
/// It is what these three operations give, one after the other, so a caller that knows what they give knows the
/// result; and it holds the exact value of each three points.
pub fn mix<E: Encloses>(from: E, to: E, at: E) -> E
    requires way { E.can_sub to from }
    requires part { (way : E) → E.sub_gives to from way → E.can_mul way at }
    requires sum { (way part : E) → E.sub_gives to from way → E.mul_gives way at part → E.can_add from part }
    ensures steps { (way : E) × ((part : E) × (E.sub_gives to from way
        × E.mul_gives way at part × E.add_gives from part result)) }
    ensures encloses { (p q t : Rational)
        → E.holds from p → E.holds to q → E.holds at t → E.holds result (mixed_of p q t) }
{
    let way = to - from;
    let part = way * at;
    from + part
}
