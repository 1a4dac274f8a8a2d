// Whether a box covers two pixels alike, by where it is.
ghost use Rattle.std.specs.Prelude.{◌≡◌, ◌↔◌, IsTrue};
ghost use Rattle.frame_state.specs.States.{sureness_of};
ghost use Rattle.cell_groups.specs.Homes as definition;
ghost use Rattle.cell_groups.specs.Homes.{TellAlike, TellsAlike, covers_by, spans_side};

use crate::homes::{Area, Home, Side};
use frame_state::Shown;
use region_split::Rect;

/// How surely a box spans a place of a side.
fn spans(side: &Side, at: u16) -> Shown
    ensures { sureness_of result ≡ spans_side side.now at }
{
    let at = i32::from(at);
    if at < side.begin.lo || side.end.hi <= at {
        Shown::No
    } else if side.begin.hi <= at && at < side.end.lo {
        Shown::Yes
    } else {
        Shown::Maybe
    }
}

/// How surely a box between these sides covers a pixel.
fn covers(across: &Side, down: &Side, x: u16, y: u16) -> Shown
    ensures { sureness_of result ≡ covers_by across.now down.now x y }
{
    match (spans(across, x), spans(down, y)) {
        (Shown::No, _) | (_, Shown::No) => Shown::No,
        (Shown::Yes, Shown::Yes) => Shown::Yes,
        _ => Shown::Maybe,
    }
}

/// Whether two things are equally sure.
fn are_same(one: Shown, other: Shown) -> bool
    ensures { IsTrue result ↔ (sureness_of one ≡ sureness_of other) }
{
    match (one, other) {
        (Shown::Yes, Shown::Yes) | (Shown::No, Shown::No) | (Shown::Maybe, Shown::Maybe) => true,
        _ => false,
    }
}

/// Whether a pixel lies outside an area.
fn is_outside(area: &Area, x: u16, y: u16) -> bool
    ensures { result ≡ definition.is_outside area.now x y }
{
    let column = i32::from(x);
    let row = i32::from(y);
    column < area.left || area.right <= column || row < area.top || area.bottom <= row
}

/// Whether a box covers the first pixels of two cells alike for sure.
fn is_alike(home: &Home, one: &Rect, other: &Rect) -> bool
    ensures { IsTrue result ↔ TellsAlike home.now one.now.x one.now.y other.now.x other.now.y }
{
    match home {
        Home::Fixed { across, down } => are_same(
            covers(across, down, one.x, one.y),
            covers(across, down, other.x, other.y),
        ),
        Home::Within(area) => {
            is_outside(area, one.x, one.y) && is_outside(area, other.x, other.y)
        }
    }
}

/// Whether all boxes do.
pub(crate) fn are_alike(homes: &[Home], one: &Rect, other: &Rect) -> bool
    ensures { IsTrue result ↔ TellAlike homes.now one.now.x one.now.y other.now.x other.now.y }
{
    for home in homes {
        if !is_alike(home, one, other) {
            return false;
        }
    }
    true
}
