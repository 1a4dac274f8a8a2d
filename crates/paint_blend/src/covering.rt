// How surely a box covers a pixel.
ghost use Rattle.std.specs.Prelude.{◌≡◌};
ghost use Rattle.page_model.specs.Slot as slots;
ghost use Rattle.page_model.specs.TintOf as definition;
ghost use Rattle.frame_state.specs.States.{IsInSlot, IsInSlots, loose_as, state_as, sureness_of};

use fix_span::Loose;
use frame_state::{LayerState, Shown};

// How surely both of two things are so.
fn both(first: Shown, second: Shown) -> Shown
    ensures { sureness_of result ≡ definition.both (sureness_of first) (sureness_of second) }
{
    match (first, second) {
        (Shown::No, _) | (_, Shown::No) => Shown::No,
        (Shown::Yes, Shown::Yes) => Shown::Yes,
        _ => Shown::Maybe,
    }
}

// How surely a box from an edge spans a column, or a row: its far edge isn't covered.
fn spans(from: Loose, size: Loose, at: u16) -> Shown
    requires from { IsInSlot slots.position (loose_as from) }
    requires size { IsInSlot slots.extent (loose_as size) }
    ensures { sureness_of result ≡ definition.spans_surely (loose_as from) (loose_as size) at }
{
    let at = at as i32;
    if at < from.lo {
        Shown::No
    } else if from.hi + size.hi <= at {
        Shown::No
    } else if from.hi <= at {
        if at < from.lo + size.lo {
            Shown::Yes
        } else {
            Shown::Maybe
        }
    } else {
        Shown::Maybe
    }
}

// How surely a layer covers a pixel. Rows are looked at only in the columns that it may cover.
fn covers(state: &LayerState, x: u16, y: u16) -> Shown
    requires { IsInSlots (state_as state.now) }
    ensures { sureness_of result ≡ definition.covers_surely (state_as state.now) x y }
{
    match spans(state.left, state.width, x) {
        Shown::No => Shown::No,
        across => both(across, spans(state.top, state.height, y)),
    }
}

/// How surely a layer is shown and covers a pixel. Where it isn't shown its box isn't looked at.
pub fn is_at(state: &LayerState, x: u16, y: u16) -> Shown
    requires { IsInSlots (state_as state.now) }
    ensures { sureness_of result
        ≡ definition.both (sureness_of state.now.shown) (definition.covers_surely (state_as state.now) x y) }
{
    match state.shown {
        Shown::No => Shown::No,
        shown => both(shown, covers(state, x, y)),
    }
}
