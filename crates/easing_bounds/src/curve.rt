// The place of an input on a cubic curve, and the numbers between which the curve's value there lies.
//
// A curve is looked at in 2^22 steps of its parameter. The last point that isn't right of the input is found by
// halving; the curve's value is within 24 / 2^22 of the height there.
ghost use Rattle.std.specs.Prelude.{◌≡◌, ◌<◌, ◌≤◌, ◌+◌, ◌-◌, ◌*◌, ◌/◌, ◌^◌, pos, neg_ℤ, ◌≤ℤ◌, ◌*ℤ◌};
ghost use Rattle.std.specs.Int.{int_div_euclid};
ghost use Rattle.page_model.specs.Curve.{column_at, height_at, point_of, curve_height};
ghost use Rattle.page_model.specs.Enclosure.{own_scale, own_height};
ghost use Rattle.page_model.specs.Fraction.{IsInner};
ghost use Rattle.page_model.specs.ValidScene.{IsBetween, IsCurve};
ghost use Rattle.fix_span.specs.Frac.{fraction_of, IsShare};
ghost use Rattle.easing_bounds.specs.Value.{AreModest};
ghost use Rattle.easing_bounds.specs.Within.{AreNear, HoldsCurve, LiesOn, own_unit, own_span, raise};

use fix_span::{Frac, Span};

/// How many steps of the parameter lead from one end of a curve to the other.
const SCALE: u64 = 1 << 22;

/// How many parts, in which columns and heights are counted at that scale, make one.
const UNIT: u128 = 1000 << 66;

/// How many of them a part of 2^30 has.
const PART: i128 = 1000 << 36;

/// The numbers between which the curve's value at an input lies, in parts of 2^30: the height of the last point that
/// isn't right of the input, rounded down, less 6,144 parts and plus 6,145. Each end is less than 2^-16 away from the
/// value. The input is strictly between 0 and 1, since the value is exact there.
///
/// CSS Easing Functions Level 1, "Cubic Bézier easing functions".
pub fn within(x1: u16, y1: i16, x2: u16, y2: i16, x: Frac) -> Span<30>
    requires limits { IsCurve x1 y1 x2 y2 }
    requires share { IsShare x }
    requires inner { IsInner (fraction_of x) }
    requires denominator { x.den ≤ℤ pos (2 ^ 48) }
    ensures ends { result ≡ own_span x1 y1 x2 y2 (fraction_of x) }
    ensures holds { HoldsCurve x1 y1 x2 y2 (fraction_of x) result }
    ensures near { AreNear x1 y1 x2 y2 (fraction_of x) result }
    ensures modest { AreModest result }
{
    let place = point(x1, x2, x);
    let parts = rounded_down(height(y1, y2, place));
    Span {
        lo: parts - 6144,
        hi: parts + 6145,
    }
}

/// The last point that isn't right of an input.
fn point(x1: u16, x2: u16, x: Frac) -> u64
    requires first { x1 ≤ 1000 }
    requires second { x2 ≤ 1000 }
    requires share { IsShare x }
    requires inner { IsInner (fraction_of x) }
    requires denominator { x.den ≤ℤ pos (2 ^ 48) }
    ensures value { result ≡ point_of x1 x2 (fraction_of x) own_scale }
    ensures within { result ≤ own_scale }
{
    place_of(x1, x2, limit_of(x))
}

/// The greatest column that isn't right of an input.
fn limit_of(x: Frac) -> u128
    requires share { IsShare x }
    requires inner { IsInner (fraction_of x) }
    requires denominator { x.den ≤ℤ pos (2 ^ 48) }
    ensures value { result ≡ (fraction_of x).num * own_unit / (fraction_of x).den }
    ensures before_end { result < own_unit }
{
    x.num as u128 * UNIT / x.den as u128
}

/// The last point whose column is at most a limit.
fn place_of(x1: u16, x2: u16, limit: u128) -> u64
    requires first { x1 ≤ 1000 }
    requires second { x2 ≤ 1000 }
    requires before_end { limit < own_unit }
    ensures { LiesOn x1 x2 limit result 1 }
{
    let mut place = 0;
    'halving: for halved in 0..22u32 {
        place = nearer(x1, x2, limit, place, 1 << (21 - halved));
    }
    place
}

/// The half in which an input lies, of a stretch of twice so many steps: where it begins.
fn nearer(x1: u16, x2: u16, limit: u128, place: u64, half: u64) -> u64
    requires first { x1 ≤ 1000 }
    requires second { x2 ≤ 1000 }
    requires whole { LiesOn x1 x2 limit place (2 * half) }
    ensures { LiesOn x1 x2 limit result half }
{
    let middle = place + half;
    if cubic(x1, x2, middle) <= limit {
        middle
    } else {
        place
    }
}

/// The column of a point, or any cubic with such control points: in parts of `UNIT`.
fn cubic(first: u16, second: u16, place: u64) -> u128
    requires first { first ≤ 8000 }
    requires second { second ≤ 8000 }
    requires inside { place ≤ own_scale }
    ensures value { result ≡ column_at first second (own_scale - place) place }
    ensures small { result < 2 ^ 82 }
{
    let left = SCALE - place;
    let arms = first as u64 * left + second as u64 * place;
    let share = 3 * left * arms + 1000 * place * place;
    place as u128 * share as u128
}

/// The height of a point: that of a curve whose control points are 4 higher, less what that adds.
fn height(y1: i16, y2: i16, place: u64) -> i128
    requires first { IsBetween (neg_ℤ (pos 4000)) (pos 4000) y1 }
    requires second { IsBetween (neg_ℤ (pos 4000)) (pos 4000) y2 }
    requires inside { place ≤ own_scale }
    ensures value { result ≡ height_at y1 y2 (own_scale - place) place }
    ensures range { IsBetween (neg_ℤ (pos (2 ^ 82))) (pos (2 ^ 82)) result }
{
    let raised = cubic((y1 + 4000) as u16, (y2 + 4000) as u16, place);
    raised as i128 - added(place) as i128
}

/// What raising both control points by 4 adds to the height of a point.
fn added(place: u64) -> u128
    requires inside { place ≤ own_scale }
    ensures value { result ≡ raise (own_scale - place) place }
    ensures small { result < 2 ^ 82 }
{
    let square = 12_000 * (SCALE - place) * place;
    square as u128 * SCALE as u128
}

/// A height in parts of 2^30, rounded down.
fn rounded_down(height: i128) -> i64
    requires range { IsBetween (neg_ℤ (pos (2 ^ 82))) (pos (2 ^ 82)) height }
    ensures value { result ≡ int_div_euclid (pos (2 ^ 30) *ℤ height) (pos own_unit) }
    ensures range { IsBetween (neg_ℤ (pos (2 ^ 40))) (pos (2 ^ 40)) result }
{
    height.div_euclid(PART) as i64
}
