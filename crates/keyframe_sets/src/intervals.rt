// The interval of a property at a progress.
ghost use Rattle.std.specs.Prelude.{ℕ, pos, true, false, ◌≡◌, ◌*◌, ◌^◌, ◌<◌, ◌≤◌, ◌≤ℤ◌, ◌*ℤ◌, ◌↔◌, All, IsNone, IfSome, option_map, unwrap_or};
ghost use Rattle.page_model.specs.Keyframes as definition;
ghost use Rattle.page_model.specs.ValidScene.{IsValid};
ghost use Rattle.fix_span.specs.Frac.{frac_of, fraction_of, IsShare};
ghost use Rattle.keyframe_sets.specs.Around.{AreApart};
ghost use Rattle.keyframe_sets.specs.Ends.{start, finish};
ghost use Rattle.keyframe_sets.specs.Here.{interval_here, names_here};
ghost use Rattle.keyframe_sets.specs.Views.{stop_as, share_as, with_frac};

use crate::around::{Around, has_stops, stops_around};
use crate::declaration::declared;
use crate::share::Share;
use crate::stops::Stop;
use crate::types::Interval;
use fix_span::Frac;
use page_model::{Easing, Keyframe, Prop, Scene, Value};

/// How far a progress is from one offset to a later one.
#[inline(always)]
fn distance(from: u16, to: u16, at: Share) -> Frac
    requires rising { from < to }
    requires inside { to ≤ 10000 }
    requires reached { from * at.den ≤ 10000 * at.num }
    requires ahead { 10000 * at.num ≤ to * at.den }
    ensures value { result ≡ frac_of (definition.distance from to (share_as at)) }
    ensures share { IsShare result }
    ensures denominator { result.den ≤ℤ pos (10000 * at.den) }
{
    Frac {
        num: (10000 * at.num - from as u64 * at.den) as i128,
        den: ((to - from) as u64 * at.den) as i128,
    }
}

/// The way from a stop that is reached to one ahead.
#[inline(always)]
fn between(easing: Easing, at: Share, first: Stop, second: Stop) -> Interval
    requires reached { definition.is_reached (share_as at) (stop_as first) ≡ true }
    requires ahead { definition.is_reached (share_as at) (stop_as second) ≡ false }
    requires inside { second.offset ≤ 10000 }
    ensures value { result
        ≡ with_frac (definition.interval_between easing (share_as at) (stop_as first) (stop_as second)) }
    ensures share { IsShare result.distance }
    ensures denominator { result.distance.den ≤ℤ pos (10000 * at.den) }
{
    Interval {
        from: first.value,
        to: second.value,
        easing: first.easing.unwrap_or(easing),
        distance: distance(first.offset, second.offset, at),
    }
}

/// The last stop that is reached: where there is none, the element's own value at 0%.
#[inline(always)]
fn first_stop(around: Around, own: Value, at: Share) -> Stop
    requires { AreApart (share_as at) around }
    ensures value { stop_as result ≡ unwrap_or (option_map stop_as around.reached) (start own) }
    ensures reached { definition.is_reached (share_as at) (stop_as result) ≡ true }
{
    match around.reached {
        Some(stop) => stop,
        None => Stop {
            offset: 0,
            value: own,
            easing: None,
        },
    }
}

/// The first stop that isn't reached: where there is none, the element's own value at 100%.
#[inline(always)]
fn second_stop(around: Around, own: Value, at: Share) -> Stop
    requires { AreApart (share_as at) around }
    ensures value { stop_as result ≡ unwrap_or (option_map stop_as around.ahead) (finish own) }
    ensures ahead { definition.is_reached (share_as at) (stop_as result) ≡ false }
    ensures inside { result.offset ≤ 10000 }
{
    match around.ahead {
        Some(stop) => stop,
        None => Stop {
            offset: 10000,
            value: own,
            easing: None,
        },
    }
}

/// The interval of a property in a set, or none where the set doesn't name it.
#[inline(always)]
pub fn interval_in_set(
    frames: &[Keyframe],
    prop: Prop,
    own: Value,
    easing: Easing,
    at: Share,
) -> Option<Interval>
    requires { All (λ frame. frame.offset ≤ 10000) frames.now }
    ensures value { result
        ≡ option_map with_frac (definition.interval_of frames.now prop own easing (share_as at)) }
    ensures named { IsNone result ↔ (definition.names prop frames.now ≡ false) }
    ensures share { IfSome result (λ interval. IsShare interval.distance) }
    ensures denominator { IfSome result (λ interval. interval.distance.den ≤ℤ pos (10000 * at.den)) }
{
    let around = stops_around(frames, prop, at);
    if !has_stops(around) {
        return None;
    }
    let first = first_stop(around, own, at);
    let second = second_stop(around, own, at);
    Some(between(easing, at, first, second))
}

/// The interval in which an animation of a layer has a property at a progress: from which value to which, by which
/// easing and how far. `None` exactly where the animation's set doesn't name the property, or there is no such
/// layer or animation. The distance is from 0 to 1, and its denominator at most 10,000 times the progress's.
///
/// CSS Animations Level 1, "Keyframes": a value that is missing at 0% or 100% is the element's own.
#[inline(always)]
pub fn interval(
    scene: &Scene,
    layer: u16,
    anim: u16,
    prop: Prop,
    progress: Frac,
) -> Option<Interval>
    requires valid { IsValid scene.now }
    requires share { IsShare progress }
    requires denominator { progress.den ≤ℤ pos (2 ^ 35) }
    ensures value { result
        ≡ option_map with_frac (interval_here scene.now layer anim prop (fraction_of progress)) }
    ensures named { IsNone result ↔ (names_here scene.now layer anim prop ≡ false) }
    ensures share { IfSome result (λ interval. IsShare interval.distance) }
    ensures denominator { IfSome result
        (λ interval. interval.distance.den ≤ℤ (pos 10000 *ℤ progress.den)) }
{
    let layer = scene.layers.get(layer as usize)?;
    let anim = layer.anims.get(anim as usize)?;
    let set = scene.sets.get(anim.set as usize)?;
    let own = declared(layer, prop);
    interval_in_set(
        set.frames.as_slice(),
        prop,
        own,
        anim.easing,
        Share::of(progress),
    )
}
