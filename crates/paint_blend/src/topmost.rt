// From which box on a pixel is painted, and up to which.
ghost use Rattle.std.specs.Prelude.{◌≡◌, ◌+◌, ◌<◌, nat_eq, if◌then◌else◌};
ghost use Rattle.frame_state.specs.States.{IsInSlots, state_as};
ghost use Rattle.paint_blend.specs.Paint.{AreReadyBoxes, HidesAt, IsMissed};
ghost use Rattle.paint_blend.specs.Seen.{IsSeen};
ghost use Rattle.paint_blend.specs.declared.topmost.Touch.TheVariants.{Misses, Hides};

use crate::covering::is_at;
use frame_state::{LayerState, Shown};

// The greatest cover and the greatest alpha.
const FULL: i32 = 255;

// What a box does at a pixel: surely nothing, something that what lies under it may show through, or it shows its own
// colour alone.
#[derive(Clone, Copy)]
enum Touch {
    Misses,
    Mixes,
    Hides,
}

// What a box does at a pixel.
fn touch_at(state: &LayerState, x: u16, y: u16) -> Touch
    requires { IsInSlots (state_as state.now) }
    ensures misses { result ≡ Misses → IsMissed (state_as state.now) x y }
    ensures hides { result ≡ Hides → HidesAt (state_as state.now) x y }
{
    match is_at(state, x, y) {
        Shown::No => Touch::Misses,
        Shown::Yes if state.cover.lo == FULL && state.alpha.lo == FULL => Touch::Hides,
        Shown::Yes | Shown::Maybe => Touch::Mixes,
    }
}

/// The place of the topmost box that hides what lies under it at a pixel, if there is one, and the places of the boxes
/// above it that may be there: they lie from the first one up to an end.
#[derive(Clone, Copy)]
pub struct Seen {
    pub hiding: Option<usize>,
    pub first: usize,
    pub end: usize,
}

// The end of such places once there is a lower one: behind this one where it is alone.
fn end_with(place: usize, first: usize, end: usize) -> usize
    requires { place < end }
    ensures { result ≡ (if nat_eq first end then place + 1 else end) }
{
    if first == end { place + 1 } else { end }
}

/// From which of these boxes on a pixel is painted, and up to which.
pub fn seen_from(states: &[LayerState], boxes: &[u16], x: u16, y: u16) -> Seen
    requires { AreReadyBoxes states.now boxes.now }
    ensures { IsSeen states.now boxes.now x y result }
{
    let mut first = boxes.len();
    let mut end = boxes.len();
    for place in (0..boxes.len()).rev() {
        match touch_at(&states[boxes[place] as usize], x, y) {
            Touch::Misses => {}
            Touch::Mixes => {
                end = end_with(place, first, end);
                first = place;
            }
            Touch::Hides => {
                return Seen {
                    hiding: Some(place),
                    first,
                    end,
                };
            }
        }
    }
    Seen {
        hiding: None,
        first,
        end,
    }
}
