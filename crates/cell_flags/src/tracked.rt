// The flags of one cell, window by window.
ghost use Rattle.std.specs.Prelude.{◌≡◌, ◌+◌, ◌*◌, ◌<◌, ◌≤◌, OnOk, Some, length, slice_get};
ghost use Rattle.cell_flags.specs.Flags.{AddsFlags, IsTracking};

use flash_count::{Flag, Tracker};
use page_model::{NoMemory, Tint};

/// The tint of a cell in a frame, of a list that has those of so many cells frame by frame.
fn tint_at(tints: &[Tint], cells: u32, cell: u32, frame: u32) -> Tint
    requires { frame * cells + cell < length tints.now }
    ensures { slice_get tints.now (frame * cells + cell) ≡ Some result }
{
    tints[frame as usize * cells as usize + cell as usize]
}

/// The cell's tints in the frames of the first window, without its last frame.
fn opened(tints: &[Tint], rate: u16, cells: u32, cell: u32) -> Tracker
    requires some { 1 ≤ rate }
    requires limit { rate ≤ 240 }
    requires known { cell < cells }
    requires all { cells * rate ≤ length tints.now }
    ensures { IsTracking tints.now cells cell rate rate result }
{
    let mut tracker = Tracker::new(rate);
    for frame in 0..u32::from(rate) {
        tracker.push(tint_at(tints, cells, cell, frame));
    }
    tracker
}

/// Adds the cell's flags in so many windows, the first of which begins at frame 0.
pub(crate) fn add_flags(
    flags: &mut Vec<Flag>,
    tints: &[Tint],
    rate: u16,
    cells: u32,
    cell: u32,
    windows: u32,
) -> Result<(), NoMemory>
    requires some { 1 ≤ rate }
    requires limit { rate ≤ 240 }
    requires few { windows ≤ 100000 }
    requires known { cell < cells }
    requires all { cells * (windows + rate + 1) ≤ length tints.now }
    ensures { OnOk result (AddsFlags tints.now cells cell rate windows flags.old.items flags.new.items) }
{
    let mut tracker = opened(tints, rate, cells, cell);
    for start in 0..windows {
        let frame = start + u32::from(rate);
        tracker.push(tint_at(tints, cells, cell, frame));
        flags.push(tracker.flagged())?;
    }
    Ok(())
}
