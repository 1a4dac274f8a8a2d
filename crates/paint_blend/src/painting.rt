// The tint of a pixel.
ghost use Rattle.std.specs.Prelude.{ℕ, false, ◌≡◌, ◌^◌, ◌<◌, ◌≤◌, ◌-◌, drop, fold, length, is_some, take};
ghost use Rattle.page_model.specs.Colour as colours;
ghost use Rattle.page_model.specs.Enclosure.{LooseState};
ghost use Rattle.page_model.specs.LayerAt.{State};
ghost use Rattle.page_model.specs.TintOf as definition;
ghost use Rattle.page_model.specs.ValidScene.{IsValid};
ghost use Rattle.flash_laws.specs.SureLaws.{IsOf};
ghost use Rattle.tint_laws.specs.NestLaws.{LiesIn};
ghost use Rattle.frame_state.specs.Scenes.{is_cubic};
ghost use Rattle.frame_state.specs.States.{AreOwn, IsInSlots, state_as, states_as};
ghost use Rattle.paint_blend.specs.Paint.{AreKnown, AreReady, AreReadyBoxes, AreStates, AreWide, IsOrdered};
ghost use Rattle.paint_blend.specs.Paint.{OpaqueHides, box_over, own_tint, span_as};

use crate::blending::{blended_span, combined_span, hull, span_of};
use crate::covering::is_at;
use crate::span::Span;
use crate::topmost::seen_from;
use frame_state::{LayerState, NOTHING, Shown, states_at};
use page_model::{Rgb, Scene, Setup, Tint};

const WHITE: Rgb = Rgb {
    r: 255,
    g: 255,
    b: 255,
};

const CANVAS: Tint = Tint {
    lo: WHITE,
    hi: WHITE,
};

// The alpha by which the body is painted, whatever its opacity.
const FULL_ALPHA: Span = Span { lo: 255, hi: 255 };

// The most layers that a valid scene has.
const MOST_LAYERS: usize = 65;

fn tint_by(red: Span, green: Span, blue: Span) -> Tint
    ensures { result ≡ definition.tint_by (span_as red) (span_as green) (span_as blue) }
{
    Tint {
        lo: Rgb {
            r: red.lo,
            g: green.lo,
            b: blue.lo,
        },
        hi: Rgb {
            r: red.hi,
            g: green.hi,
            b: blue.hi,
        },
    }
}

fn red_span(tint: Tint) -> Span
    ensures { span_as result ≡ definition.red_span tint }
{
    Span {
        lo: tint.lo.r,
        hi: tint.hi.r,
    }
}

fn green_span(tint: Tint) -> Span
    ensures { span_as result ≡ definition.green_span tint }
{
    Span {
        lo: tint.lo.g,
        hi: tint.hi.g,
    }
}

fn blue_span(tint: Tint) -> Span
    ensures { span_as result ≡ definition.blue_span tint }
{
    Span {
        lo: tint.lo.b,
        hi: tint.hi.b,
    }
}

// A layer painted over a tint, by its cover and an alpha together.
#[inline(always)]
fn tint_over(state: &LayerState, opacity: Span, backdrop: Tint) -> Tint
    requires { IsInSlots (state_as state.now) }
    ensures { result ≡ definition.tint_over (state_as state.now) (span_as opacity) backdrop }
{
    let alpha = combined_span(span_of(state.cover), opacity);
    tint_by(
        blended_span(span_of(state.r), alpha, red_span(backdrop)),
        blended_span(span_of(state.g), alpha, green_span(backdrop)),
        blended_span(span_of(state.b), alpha, blue_span(backdrop)),
    )
}

fn tint_hull(a: Tint, b: Tint) -> Tint
    ensures { result ≡ definition.tint_hull a b }
{
    tint_by(
        hull(red_span(a), red_span(b)),
        hull(green_span(a), green_span(b)),
        hull(blue_span(a), blue_span(b)),
    )
}

// The tint after a box is painted, where it is shown and covers the pixel.
#[inline(always)]
fn with_box(state: &LayerState, x: u16, y: u16, backdrop: Tint) -> Tint
    requires { IsInSlots (state_as state.now) }
    ensures { result ≡ box_over (state_as state.now) x y backdrop }
{
    match is_at(state, x, y) {
        Shown::Yes => tint_over(state, span_of(state.alpha), backdrop),
        Shown::No => backdrop,
        Shown::Maybe => tint_hull(tint_over(state, span_of(state.alpha), backdrop), backdrop),
    }
}

// Whether the body has a colour.
fn has_ground(scene: &Scene) -> bool
    ensures { result ≡ is_some (colours.body_colour scene.now) }
{
    match scene.layers.get(0) {
        Some(body) => body.colour.is_some(),
        None => false,
    }
}

// The tint before any box is painted: the canvas, with the body over it where it has a colour.
fn ground(scene: &Scene, states: &[LayerState]) -> Tint
    requires valid { IsValid scene.now }
    requires states { length states.now ≡ length scene.now.layers }
    requires ready { AreReady scene.now (states_as states.now) }
    ensures { result ≡ definition.tint_ground scene.now (states_as states.now) }
{
    if has_ground(scene) {
        tint_over(&states[0], FULL_ALPHA, CANVAS)
    } else {
        CANVAS
    }
}

// The tint of a box that hides what lies under it: its own colour.
fn hiding_tint(state: &LayerState) -> Tint
    requires { IsInSlots (state_as state.now) }
    ensures own { result ≡ own_tint (state_as state.now) }
    ensures hides { OpaqueHides (state_as state.now) }
{
    tint_by(span_of(state.r), span_of(state.g), span_of(state.b))
}

// The boxes from a place up to an end.
fn boxes_between(boxes: &[u16], first: usize, end: usize) -> &[u16]
    requires order { first ≤ end }
    requires inside { end ≤ length boxes.now }
    ensures { result.now ≡ take (end - first) (drop first boxes.now) }
{
    &boxes[first..end]
}

// The tint after boxes are painted over another tint, in their order.
fn with_boxes(states: &[LayerState], boxes: &[u16], x: u16, y: u16, under: Tint) -> Tint
    requires { AreReadyBoxes states.now boxes.now }
    ensures { result ≡ fold (definition.tint_box (states_as states.now) x y) under boxes.now }
{
    let mut tint = under;
    for number in boxes {
        tint = with_box(&states[*number as usize], x, y, tint);
    }
    tint
}

// The tint of a pixel. What lies under the topmost box that hides it isn't painted, and boxes that surely miss the
// pixel over or under all others are looked at once.
fn painted(scene: &Scene, states: &[LayerState], x: u16, y: u16) -> Tint
    requires valid { IsValid scene.now }
    requires states { length states.now ≡ length scene.now.layers }
    requires ready { AreReady scene.now (states_as states.now) }
    ensures { result ≡ definition.tint_of scene.now (states_as states.now) x y }
{
    let boxes = scene.order.as_slice();
    let seen = seen_from(states, boxes, x, y);
    let above = boxes_between(boxes, seen.first, seen.end);
    match seen.hiding {
        Some(place) => {
            let tint = hiding_tint(&states[boxes[place] as usize]);
            with_boxes(states, above, x, y, tint)
        }
        None => with_boxes(states, above, x, y, ground(scene, states)),
    }
}

/// The tint of a pixel, by the states of the layers: the least and the greatest colour that it may have,
/// channel by channel. The canvas is white, the body is painted on every pixel where it has a colour, whatever
/// its opacity, and the boxes follow in paint order, each blended in eight bits over what is there, by the
/// cover of its colour and the alpha of its opacity together; where a box may or may not be shown there, the
/// tint holds what is there with it and without it. Its ends are in order. By exact states it is the one
/// colour that they paint.
pub fn tint_of(scene: &Scene, states: &[LayerState], x: u16, y: u16) -> Tint
    requires valid { IsValid scene.now }
    requires states { length states.now ≡ length scene.now.layers }
    requires ready { AreReady scene.now (states_as states.now) }
    ensures value { result ≡ definition.tint_of scene.now (states_as states.now) x y }
    ensures exact { (known : ℕ → State) → AreKnown scene.now (states_as states.now) known
        → result ≡ definition.single (colours.painted scene.now known x y) }
    ensures ordered { IsOrdered result }
{
    painted(scene, states, x, y)
}

/// The tint of a pixel in frame `k`, by the states of the own kind, whichever they are. It holds the pixel's
/// exact colour, it lies in the tint by states of the wide kind, and its ends are in order. Where no easing
/// is a curve it is the exact colour, as both ends.
pub fn tint(scene: &Scene, setup: &Setup, k: u64, x: u16, y: u16) -> Tint
    requires valid { IsValid scene.now }
    requires frame { k < 2 ^ 32 }
    ensures own { (states : ℕ → LooseState) × AreOwn scene.now setup.now k states
        × (result ≡ definition.tint_of scene.now states x y) }
    ensures only { (states : ℕ → LooseState) → AreOwn scene.now setup.now k states
        → result ≡ definition.tint_of scene.now states x y }
    ensures exact { is_cubic scene.now ≡ false → (states : ℕ → State)
        → AreStates scene.now setup.now k states
        → result ≡ definition.single (colours.painted scene.now states x y) }
    ensures holds { (states : ℕ → State) → AreStates scene.now setup.now k states
        → IsOf result (colours.painted scene.now states x y) }
    ensures wide { (states : ℕ → LooseState) → AreWide scene.now setup.now k states
        → LiesIn (definition.tint_of scene.now states x y) result }
    ensures ordered { IsOrdered result }
{
    let mut all = [NOTHING; MOST_LAYERS];
    let states = &mut all[..scene.layers.len()];
    states_at(scene, setup, k, states);
    tint_of(scene, states, x, y)
}
