// The way of a property by an animation.
ghost use Rattle.std.specs.Prelude.{◌≡◌, pos, neg_ℤ, ◌^◌, ◌≤ℤ◌, option_map};
ghost use Rattle.page_model.specs.ValidScene.{IsBetween, IsEasing, IsValid};
ghost use Rattle.fix_span.specs.Frac.{fraction_of, IsShare};
ghost use Rattle.keyframe_sets.specs.Here.{interval_here};
ghost use Rattle.easing_bounds.specs.Value.{AreModest, IfExact, IfWithin};
ghost use Rattle.slot_values.specs.Ends.{end_of, IsEnd};
ghost use Rattle.layer_ways.specs.Alpha.{HasAlpha};
ghost use Rattle.layer_ways.specs.Ways as definition;

use crate::way::Way;
use easing_bounds::eased;
use easing_bounds::types::Eased;
use fix_span::Frac;
use keyframe_sets::interval;
use keyframe_sets::types::Interval;
use page_model::{Prop, Scene};

/// How many parts the ends of a curve's value are told in.
const CURVE_PARTS: i128 = 1 << 30;

/// An end of a curve's value.
#[inline(always)]
fn curve_end(parts: i64) -> Frac
    requires { IsBetween (neg_ℤ (pos (2 ^ 41))) (pos (2 ^ 41)) parts }
    ensures value { end_of result ≡ definition.curve_end parts }
    ensures end { IsEnd result }
{
    Frac {
        num: parts as i128,
        den: CURVE_PARTS,
    }
}

/// The lower and the upper end of an eased value, which are one where it is a fraction.
#[inline(always)]
fn ends_of(eased: Eased) -> (Frac, Frac)
    requires share { IfExact IsShare eased }
    requires few { IfExact (λ y. y.den ≤ℤ pos (2 ^ 48)) eased }
    requires modest { IfWithin AreModest eased }
    ensures least { end_of result.0 ≡ definition.least_of eased }
    ensures greatest { end_of result.1 ≡ definition.greatest_of eased }
    ensures least_end { IsEnd result.0 }
    ensures greatest_end { IsEnd result.1 }
{
    match eased {
        Eased::Exact(x) => (x, x),
        Eased::Within(span) => (curve_end(span.lo), curve_end(span.hi)),
    }
}

/// The way in an interval, eased.
#[inline(always)]
fn eased_way(interval: Interval) -> Way
    requires limits { IsEasing interval.easing }
    requires share { IsShare interval.distance }
    requires few { interval.distance.den ≤ℤ pos (2 ^ 48) }
    requires first { HasAlpha interval.from }
    requires second { HasAlpha interval.to }
    ensures { definition.way_as result ≡ definition.eased_way (definition.interval_as interval) }
{
    let (least, greatest) = ends_of(eased(&interval.easing, interval.distance));
    Way {
        from: interval.from,
        to: interval.to,
        least,
        greatest,
    }
}

/// An animation of a layer that has an effect, at its progress.
#[derive(Clone, Copy)]
pub struct Effect {
    pub layer: u16,
    pub anim: u16,
    pub at: Frac,
    pub ghost share: { IsShare at },
    pub ghost few: { at.den ≤ℤ pos 24000000000 },
}

/// The way of a property by an animation, where the animation's set names it.
#[inline(always)]
pub fn way_by(scene: &Scene, effect: Effect, prop: Prop) -> Option<Way>
    requires { IsValid scene.now }
    ensures { option_map definition.way_as result
        ≡ option_map definition.eased_way
        (interval_here scene.now effect.layer effect.anim prop (fraction_of effect.at)) }
{
    match interval(scene, effect.layer, effect.anim, prop, effect.at) {
        Some(interval) => Some(eased_way(interval)),
        None => None,
    }
}
