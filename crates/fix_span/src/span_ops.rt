// Sums, differences, products and rounding of numbers between two ends.
use crate::corners::{greatest_product, least_product};
use crate::encloses::Encloses;
use crate::frac::Frac;
use crate::loose::Loose;
use crate::rounding::{floor_of, half_up_of};
use crate::scale::{ceiling_of, narrow, parts_of, raised};
use crate::span::Span;
use std::ops::{Add, Mul, Neg, Sub};

impl<const F: u32> Add for Span<F> {
    ghost use Rattle.std.specs.Prelude.{◌≡◌};
    ghost use Rattle.fix_span.specs.Span.{Fits, sum};

    type Output = Span<F>;

    ghost can_add = { λ x y. Fits F (sum F x y) };

    ghost add_gives = { λ x y r. r ≡ sum F x y };

    fn add(self, rhs: Span<F>) -> Span<F> {
        Span {
            lo: self.lo + rhs.lo,
            hi: self.hi + rhs.hi,
        }
    }
}

impl<const F: u32> Sub for Span<F> {
    ghost use Rattle.std.specs.Prelude.{◌≡◌};
    ghost use Rattle.fix_span.specs.Span.{Fits, difference};

    type Output = Span<F>;

    ghost can_sub = { λ x y. Fits F (difference F x y) };

    ghost sub_gives = { λ x y r. r ≡ difference F x y };

    fn sub(self, rhs: Span<F>) -> Span<F> {
        Span {
            lo: self.lo - rhs.hi,
            hi: self.hi - rhs.lo,
        }
    }
}

impl<const F: u32> Neg for Span<F> {
    ghost use Rattle.std.specs.Prelude.{◌≡◌};
    ghost use Rattle.fix_span.specs.Span.{Fits, negation};

    type Output = Span<F>;

    ghost can_neg = { λ x. Fits F (negation F x) };

    ghost neg_gives = { λ x r. r ≡ negation F x };

    fn neg(self) -> Span<F> {
        Span {
            lo: -self.hi,
            hi: -self.lo,
        }
    }
}

impl<const F: u32> Mul for Span<F> {
    ghost use Rattle.std.specs.Prelude.{◌≡◌, ◌≤◌};
    ghost use Rattle.fix_span.specs.Span.{Fits, product};

    type Output = Span<F>;

    ghost can_mul = { λ x y. (F ≤ 60) × Fits F (product F x y) };

    ghost mul_gives = { λ x y r. r ≡ product F x y };

    fn mul(self, rhs: Span<F>) -> Span<F> {
        let least = least_product(self.lo, self.hi, rhs.lo, rhs.hi);
        let greatest = greatest_product(self.lo, self.hi, rhs.lo, rhs.hi);
        Span {
            lo: narrow(floor_of(least, parts_of(F))),
            hi: narrow(ceiling_of(greatest, parts_of(F))),
        }
    }
}

impl<const F: u32> Encloses for Span<F> {
    ghost use Rattle.std.specs.Prelude.{◌≡◌, ◌≤◌, ◌<◌};
    ghost use Rattle.fix_span.specs.Span.{Fits, Holds, CanRound, whole_span, rounded};
    ghost use Rattle.fix_span.specs.SpanLaws as laws;

    ghost holds = { λ x p. Holds F x p };

    ghost can_be_whole = { λ n. (F ≤ 60) × Fits F (whole_span F n) };

    ghost whole_gives = { λ n x. x ≡ whole_span F n };

    ghost can_round = { λ x unit. CanRound F x unit };

    ghost round_gives = { λ x unit r. r ≡ rounded F x unit };

    fn whole(n: i64) -> Span<F> {
        let parts = narrow(raised(n, F));
        Span {
            lo: parts,
            hi: parts,
        }
    }

    fn round_half_up(self, unit: u32) -> Loose {
        let den = parts_of(F);
        let least = Frac {
            num: self.lo as i128,
            den,
        };
        let greatest = Frac {
            num: self.hi as i128,
            den,
        };
        Loose {
            lo: half_up_of(least, unit) as i32,
            hi: half_up_of(greatest, unit) as i32,
        }
    }

    ghost whole_holds = { laws.Holds-whole F };

    ghost sum_holds = { laws.Holds-sum F };

    ghost difference_holds = { laws.Holds-difference F };

    ghost product_holds = { laws.Holds-product F };

    ghost least_rounding = { laws.least_rounding F };

    ghost greatest_rounding = { laws.greatest_rounding F };
}
