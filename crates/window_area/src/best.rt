// The greatest flagged area, and where it is.
ghost use Rattle.std.specs.Prelude.{ℤ, MatchOption, pos, ◌≡◌, ◌+◌, ◌*◌, ◌<◌, ◌≤◌, ◌≤ℤ◌, length, min, nat_lt};
ghost use Rattle.std.specs.Prelude.{if◌then◌else◌};
ghost use Rattle.window_area.specs.Edges.{AreEdges, bands};
ghost use Rattle.window_area.specs.FlaggedArea.{flagged_area, HoldsAtMost, IsFirstColumn, IsFirstRow, IsGreatest};
ghost use Rattle.window_area.specs.Sliding.{AreWeights, IsBestRow, IsLookedAt};

use crate::columns::{open_columns, row_of, slide_columns};
use crate::strip::{Most, most_in_strip};
use crate::total::{flagged_width, total_area};
use crate::window::Window;

/// The size of WCAG 2.2's rectangle, in pixels.
const WIDTH: u32 = 341;

const HEIGHT: u32 = 256;

/// The greatest number of flagged pixels that the rectangle holds, and the position of its upper
/// left pixel.
#[derive(Clone, Copy, Debug, PartialEq, Eq)]
pub struct Best {
    pub area: u32,
    pub x: i32,
    pub y: i32,
}

/// A row, and the most that a rectangle with its upper left pixel there holds.
#[derive(Clone, Copy)]
struct BestRow {
    row: u32,
    most: Most,
}

impl BestRow {
    /// The better of the two, the earlier one where they are equal.
    fn or_later(self, later: BestRow) -> BestRow
        ensures { result ≡ (if nat_lt self.most.area later.most.area then later else self) }
    {
        if self.most.area < later.most.area {
            later
        } else {
            self
        }
    }

    /// As it is told.
    fn told(self) -> Best
        requires row { self.row ≤ 4096 }
        requires column { self.most.place ≤ 4096 }
        ensures { result ≡ record { area = self.most.area; x = pos self.most.place; y = pos self.row } }
    {
        Best {
            area: self.most.area,
            x: self.most.place as i32,
            y: self.row as i32,
        }
    }
}

/// The greatest number of flagged pixels in a rectangle of 341 by 256 pixels at any whole position,
/// and the first position with it, by rows, from 0 on. The edges cut the viewport into cells, which
/// are flagged row by row from the upper left; `work` is written over.
pub fn greatest(xs: &[u16], ys: &[u16], flags: &[bool], work: &mut [u32]) -> Best
    requires columns { AreEdges xs.now }
    requires rows { AreEdges ys.now }
    requires cells { length flags.now ≡ bands ys.now * bands xs.now }
    requires work { length flags.now ≤ length work.old }

    ensures most { (x y : ℤ) → flagged_area xs.now ys.now flags.now x y ≤ result.area }
    ensures has { flagged_area xs.now ys.now flags.now result.x result.y ≡ result.area }

    ensures right { pos 0 ≤ℤ result.x }
    ensures down { pos 0 ≤ℤ result.y }
    ensures first_row { IsFirstRow xs.now ys.now flags.now result.area result.y }
    ensures first_column { IsFirstColumn xs.now ys.now flags.now result.area result.x result.y }
{
    best_row(0, xs, ys, flags, work).told()
}

/// The same where a rectangle holds more than a limit, and else none. No row is looked at where all flagged pixels
/// together are no more than the limit, and rows in which no rectangle can hold more are passed over: that takes less
/// time than [`greatest`] where few pixels are flagged, or flagged ones are far apart.
pub fn greatest_above(
    limit: u32,
    xs: &[u16],
    ys: &[u16],
    flags: &[bool],
    work: &mut [u32],
) -> Option<Best>
    requires columns { AreEdges xs.now }
    requires rows { AreEdges ys.now }
    requires cells { length flags.now ≡ bands ys.now * bands xs.now }
    requires work { length flags.now ≤ length work.old }
    ensures { MatchOption result (HoldsAtMost xs.now ys.now flags.now limit)
        (λ best. (limit < best.area) × IsGreatest xs.now ys.now flags.now best) }
{
    if total_area(xs, ys, flags) <= limit {
        return None;
    }
    let best = best_row(limit, xs, ys, flags, work);
    if best.most.area <= limit {
        return None;
    }
    Some(best.told())
}

/// The best row so far, and what no rectangle in the row where the window stands holds more than.
#[derive(Clone, Copy)]
struct Lead {
    best: BestRow,
    bound: u32,
}

impl Lead {
    /// After the window of rows has come to this row, where a rectangle is looked for only if one may hold more than
    /// the best.
    fn looked_at(self, row: u32, xs: &[u16], columns: &[u32]) -> Lead
        requires edges { AreEdges xs.now }
        requires weights { AreWeights xs.now columns.now }
        ensures { IsLookedAt xs.now columns.now row self result }
    {
        if self.bound <= self.best.most.area {
            return self;
        }
        let most = most_in_strip(xs, columns, WIDTH);
        Lead {
            best: self.best.or_later(BestRow { row, most }),
            bound: most.area,
        }
    }
}

/// What no rectangle holds more than a stride further down, where none holds more than a bound and each row of pixels
/// that comes in has so many flagged ones.
fn bound_after(bound: u32, stride: u32, width: u32) -> u32
    requires bound { bound ≤ 341 * 256 }
    requires stride { stride ≤ 4096 }
    ensures { result ≡ min (bound + stride * min width 341) (341 * 256) }
{
    (bound + stride * width.min(WIDTH)).min(WIDTH * HEIGHT)
}

/// What is the best before any row is looked at: no more than a limit.
fn limit_only(limit: u32) -> BestRow
    ensures { result ≡ record { row = 0; most = record { area = limit; place = 0 } } }
{
    let most = Most {
        area: limit,
        place: 0,
    };
    BestRow { row: 0, most }
}

/// The first row in which a rectangle holds most, where that is more than a limit.
fn best_row(limit: u32, xs: &[u16], ys: &[u16], flags: &[bool], work: &mut [u32]) -> BestRow
    requires columns { AreEdges xs.now }
    requires rows { AreEdges ys.now }
    requires cells { length flags.now ≡ bands ys.now * bands xs.now }
    requires work { length flags.now ≤ length work.old }
    ensures best { IsBestRow xs.now ys.now flags.now limit result.row result.most.place result.most.area }
    ensures row { result.row ≤ 4096 }
    ensures column { result.most.place ≤ 4096 }
{
    let across = xs.len() - 1;
    let mut window = Window::open(ys, HEIGHT);
    open_columns(across, ys, flags, HEIGHT, work);
    let most = most_in_strip(xs, work, WIDTH);
    let mut lead = Lead {
        best: limit_only(limit).or_later(BestRow { row: 0, most }),
        bound: most.area,
    };
    while let Some(stride) = window.stride(ys) {
        let width = flagged_width(xs, row_of(flags, across, window.next));
        lead.bound = bound_after(lead.bound, stride, width);
        slide_columns(across, ys, flags, &window, stride, work);
        window = window.slid(ys, stride);
        lead = lead.looked_at(window.place, xs, work);
    }
    lead.best
}
