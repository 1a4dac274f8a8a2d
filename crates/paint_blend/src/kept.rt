// Whether a pixel has the same tint in the next frame.
ghost use Rattle.std.specs.Prelude.{◌≡◌, ◌↔◌, ◌^◌, ◌<◌, ◌≤◌, All, IsTrue, length, slice_get, take};
ghost use Rattle.page_model.specs.declared.scene.Scene.{Scene as Page};
ghost use Rattle.page_model.specs.TintOf.{tint_of};
ghost use Rattle.page_model.specs.ValidScene.{IsValid};
ghost use Rattle.frame_state.specs.States.{IsInSlots, state_as, states_as};
ghost use Rattle.paint_blend.specs.Kept.{AreAllReady, AreChanged, HaveSameColour, HaveSamePlace, MissesBoth};
ghost use Rattle.paint_blend.specs.Paint.{IsMissed};

use crate::covering::is_at;
use fix_span::Loose;
use frame_state::{LayerState, Shown};

// Whether two numbers have the same ends.
fn are_same(first: Loose, second: Loose) -> bool
    ensures { IsTrue result ↔ (first ≡ second) }
{
    first.lo == second.lo && first.hi == second.hi
}

// Whether two layers are shown alike.
fn shown_alike(first: Shown, second: Shown) -> bool
    ensures { IsTrue result ↔ (first ≡ second) }
{
    match (first, second) {
        (Shown::Yes, Shown::Yes) => true,
        (Shown::No, Shown::No) => true,
        (Shown::Maybe, Shown::Maybe) => true,
        _ => false,
    }
}

// Whether two layers have the same place.
fn same_place(first: &LayerState, second: &LayerState) -> bool
    ensures { IsTrue result ↔ HaveSamePlace first.now second.now }
{
    if !are_same(first.left, second.left) {
        return false;
    }
    if !are_same(first.top, second.top) {
        return false;
    }
    if !are_same(first.width, second.width) {
        return false;
    }
    are_same(first.height, second.height)
}

// Whether two layers have the same colour.
fn same_colour(first: &LayerState, second: &LayerState) -> bool
    ensures { IsTrue result ↔ HaveSameColour first.now second.now }
{
    if !are_same(first.r, second.r) {
        return false;
    }
    if !are_same(first.g, second.g) {
        return false;
    }
    if !are_same(first.b, second.b) {
        return false;
    }
    if !are_same(first.cover, second.cover) {
        return false;
    }
    are_same(first.alpha, second.alpha)
}

// Whether two states are the same.
fn is_same(first: &LayerState, second: &LayerState) -> bool
    ensures { IsTrue result ↔ (first.now ≡ second.now) }
{
    if !same_colour(first, second) {
        return false;
    }
    if !same_place(first, second) {
        return false;
    }
    shown_alike(first.shown, second.shown)
}

/// Writes the numbers of the layers whose state differs from the one before, and tells how many were written.
pub fn changed_in(before: &[LayerState], now: &[LayerState], changed: &mut [u16]) -> usize
    requires same { length before.now ≡ length now.now }
    requires few { length now.now < 2 ^ 16 }
    requires room { length now.now ≤ length changed.old }
    ensures inside { result ≤ length now.now }
    ensures long { length changed.new ≡ length changed.old }
    ensures are { AreChanged before.now now.now (take result changed.new) }
{
    let mut count = 0;
    for i in 0..now.len() {
        if !is_same(&before[i], &now[i]) {
            changed[count] = i as u16;
            count += 1;
        }
    }
    count
}

// Whether a layer surely isn't shown, or doesn't cover a pixel.
fn misses(state: &LayerState, x: u16, y: u16) -> bool
    requires { IsInSlots (state_as state.now) }
    ensures { IsTrue result ↔ IsMissed (state_as state.now) x y }
{
    matches!(is_at(state, x, y), Shown::No)
}

// Whether a layer is a box that misses a pixel by both of its states.
fn misses_both(before: &[LayerState], now: &[LayerState], number: u16, x: u16, y: u16) -> bool
    requires there { number < length now.now }
    requires same { length before.now ≡ length now.now }
    requires earlier { AreAllReady before.now }
    requires later { AreAllReady now.now }
    ensures { IsTrue result ↔ MissesBoth before.now now.now x y number }
{
    if number == 0 {
        return false;
    }
    if !misses(&before[number as usize], x, y) {
        return false;
    }
    misses(&now[number as usize], x, y)
}

/// Whether each of the layers that changed is a box that misses a pixel, before and now. Then the pixel's tint is what
/// it was. Only the layers that changed are looked at, so it costs nothing where none did.
pub fn is_kept(before: &[LayerState], now: &[LayerState], changed: &[u16], x: u16, y: u16) -> bool
    requires same { length before.now ≡ length now.now }
    requires earlier { AreAllReady before.now }
    requires later { AreAllReady now.now }
    requires changed { AreChanged before.now now.now changed.now }
    ensures missed { IsTrue result ↔ All (MissesBoth before.now now.now x y) changed.now }
    ensures kept { IsTrue result → (scene : Page) → IsValid scene → length now.now ≡ length scene.layers
        → tint_of scene (states_as now.now) x y ≡ tint_of scene (states_as before.now) x y }
{
    for number in changed {
        if !misses_both(before, now, *number, x, y) {
            return false;
        }
    }
    true
}
