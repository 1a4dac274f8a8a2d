// Whether a part is painted evenly: where no edge of a box cuts it, all its pixels look like the first one.
ghost use Rattle.std.specs.Prelude.{◌≡◌, ◌↔◌, ◌+ℤ◌, IsTrue, length};
ghost use Rattle.frame_state.specs.States.{loose_as, state_as, states_as};
ghost use Rattle.even_parts.specs.Even.{ArePaintedEvenly, Cuts, CutsNowhere, IsPaintedEvenly, Misses};

use fix_span::Loose;
use frame_state::{LayerState, Shown};
use page_model::Part;

/// Where a box ends that begins at a place.
fn end_of(start: i32, size: i32) -> i64
    ensures { result ≡ start +ℤ size }
{
    i64::from(start) + i64::from(size)
}

/// Whether an edge cuts so many places from a start on: it lies behind the first of them, and before their end.
fn cuts(edge: i64, start: u16, extent: u16) -> bool
    ensures { IsTrue result ↔ Cuts edge start extent }
{
    let start = i64::from(start);
    let end = start + i64::from(extent);
    start < edge && edge < end
}

/// Whether a box from a loose edge surely has none of so many places from a start on.
fn misses(from: Loose, size: Loose, start: u16, extent: u16) -> bool
    ensures { IsTrue result → Misses (loose_as from) (loose_as size) start extent }
{
    if end_of(i32::from(start), i32::from(extent)) <= i64::from(from.lo) {
        return true;
    }
    end_of(from.hi, size.hi) <= i64::from(start)
}

/// Whether neither the first nor the last place at which a box may begin cuts so many places from a start on, nor those at which it
/// may end.
fn cuts_nowhere(from: Loose, size: Loose, start: u16, extent: u16) -> bool
    ensures { IsTrue result → CutsNowhere (loose_as from) (loose_as size) start extent }
{
    if cuts(i64::from(from.lo), start, extent) {
        return false;
    }
    if cuts(i64::from(from.hi), start, extent) {
        return false;
    }
    if cuts(end_of(from.lo, size.lo), start, extent) {
        return false;
    }
    !cuts(end_of(from.hi, size.hi), start, extent)
}

/// Whether a box is painted as surely at all pixels of a part as at the first one: it isn't shown, it misses the part, or it cuts it
/// nowhere.
fn is_painted_evenly(state: &LayerState, part: &Part) -> bool
    ensures { IsTrue result → IsPaintedEvenly (state_as state.now) part.now }
{
    if state.shown == Shown::No {
        return true;
    }
    if misses(state.left, state.width, part.x, part.width) {
        return true;
    }
    if misses(state.top, state.height, part.y, part.height) {
        return true;
    }
    if !cuts_nowhere(state.left, state.width, part.x, part.width) {
        return false;
    }
    cuts_nowhere(state.top, state.height, part.y, part.height)
}

/// Whether all boxes are, by the states of the layers: of these the first is the body's, which paints each pixel.
pub fn are_painted_evenly(states: &[LayerState], part: &Part) -> bool
    ensures { IsTrue result → ArePaintedEvenly (states_as states.now) (length states.now) part.now }
{
    for number in 1..states.len() {
        if !is_painted_evenly(&states[number], part) {
            return false;
        }
    }
    true
}
