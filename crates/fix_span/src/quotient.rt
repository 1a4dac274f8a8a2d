// One fraction over another.
ghost use Rattle.std.specs.Prelude.{◌≡◌, pos, ◌<ℤ◌};
ghost use Rattle.fix_span.specs.Frac.{Fits, IsNumber};
ghost use Rattle.fix_span.specs.Quotient.{quotient, quotient_of};
ghost use Rattle.fix_span.specs.Rational.{Rational};

use crate::frac::Frac;

impl Frac {
    /// The exact quotient of this fraction and a positive one: of the numbers that both are it is the quotient.
    pub fn over(self, other: Frac) -> Frac
        requires positive { pos 0 <ℤ other.num }
        requires fits { Fits (quotient self other) }
        ensures value { result ≡ quotient self other }
        ensures exact { (p q : Rational) → IsNumber self p → IsNumber other q
            → IsNumber result (quotient_of p q) }
    {
        divided(self, other)
    }
}

// The products of the quotient.
fn divided(x: Frac, y: Frac) -> Frac
    requires { Fits (quotient x y) }
    ensures { result ≡ quotient x y }
{
    Frac {
        num: x.num * y.den,
        den: x.den * y.num,
    }
}
