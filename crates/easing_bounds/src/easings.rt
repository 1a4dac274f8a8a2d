// The eased value of an input.
ghost use Rattle.std.specs.Prelude.{◌≡◌, pos, ◌^◌, ◌≤ℤ◌, false};
ghost use Rattle.page_model.specs.declared.easing.Easing.TheVariants.{Cubic};
ghost use Rattle.page_model.specs.Enclosure as enclosure;
ghost use Rattle.page_model.specs.ValidScene.{IsCurve, IsEasing};
ghost use Rattle.fix_span.specs.Frac.{fraction_of, IsShare};
ghost use Rattle.easing_bounds.specs.Value.{curve_value, eased_value, is_cubic, AreModest, IfExact, IfWithin, IsExact, IsTold};

use crate::curve::within;
use crate::steps::stepped;
use crate::types::Eased;
use fix_span::Frac;
use page_model::Easing;

/// The eased value of an input `x` from 0 to 1: the definition's fraction, from 0 to 1 too, or where a cubic curve has
/// an input strictly between 0 and 1 the ends of its own interval. Each end is less than 2^-16 away from the value.
///
/// CSS Easing Functions Level 1, without a before flag.
#[inline(always)]
pub fn eased(easing: &Easing, x: Frac) -> Eased
    requires limits { IsEasing easing.now }
    requires share { IsShare x }
    requires denominator { x.den ≤ℤ pos (2 ^ 48) }
    ensures value { result ≡ eased_value easing.now (fraction_of x) }
    ensures told { IsTold easing.now (fraction_of x) result }
    ensures exact { is_cubic easing.now ≡ false → IsExact result }
    ensures share { IfExact IsShare result }
    ensures denominator { IfExact (λ y. y.den ≤ℤ pos (2 ^ 48)) result }
    ensures modest { IfWithin AreModest result }
{
    match *easing {
        Easing::Linear => Eased::Exact(x),
        Easing::Steps { count, jump } => Eased::Exact(stepped(count, jump, x)),
        Easing::Cubic { x1, y1, x2, y2 } => curved(x1, y1, x2, y2, x),
    }
}

/// A curve's value: the input at 0 and 1, and the own interval between them.
#[inline(always)]
fn curved(x1: u16, y1: i16, x2: u16, y2: i16, x: Frac) -> Eased
    requires limits { IsCurve x1 y1 x2 y2 }
    requires share { IsShare x }
    requires denominator { x.den ≤ℤ pos (2 ^ 48) }
    ensures value { result ≡ curve_value x1 y1 x2 y2 (fraction_of x) }
    ensures told { IsTold (Cubic x1 y1 x2 y2) (fraction_of x) result }
    ensures share { IfExact IsShare result }
    ensures denominator { IfExact (λ y. y.den ≤ℤ pos (2 ^ 48)) result }
    ensures modest { IfWithin AreModest result }
{
    if is_inner(x) {
        Eased::Within(within(x1, y1, x2, y2, x))
    } else {
        Eased::Exact(x)
    }
}

/// Whether an input is strictly between 0 and 1.
fn is_inner(x: Frac) -> bool
    requires { IsShare x }
    ensures { result ≡ enclosure.is_inner (fraction_of x) }
{
    0 < x.num && x.num < x.den
}
