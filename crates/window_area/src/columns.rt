// The flagged pixels of each band of columns, in the rows of a window.
ghost use Rattle.std.specs.Prelude.{pos, ℕ, false, ◌≡◌, ◌+◌, ◌*◌, ◌<◌, ◌≤◌, length, slice_index, slice_index_or, cond};
ghost use Rattle.window_area.specs.Edges.{AreEdges, bands};
ghost use Rattle.window_area.specs.Sliding.{AreColumns, IsStride, IsWindow, AddsWhereFlagged, TakesWhereFlagged, IsRow};

use crate::strip::overlap;
use crate::window::Window;

/// The flags of a row of cells.
pub(crate) fn row_of(flags: &[bool], across: usize, row: usize) -> &[bool]
    requires { row * across + across ≤ length flags.now }
    ensures { IsRow across flags.now row result.now }
{
    &flags[row * across..row * across + across]
}

/// An amount, where it is flagged.
pub(crate) fn only_if(flagged: bool, amount: u32) -> u32
    ensures { result ≡ cond flagged amount 0 }
{
    if flagged { amount } else { 0 }
}

/// Adds an amount to each flagged column.
fn add_where_flagged(row: &[bool], amount: u32, columns: &mut [u32])
    requires enough { length row.now ≤ length columns.old }
    requires small { (band : ℕ) → band < length row.now → slice_index columns.old band ≤ 4096 }
    requires amount { amount ≤ 4096 }
    ensures { AddsWhereFlagged row.now amount columns.old columns.new }
{
    for band in 0..row.len() {
        columns[band] += only_if(row[band], amount);
    }
}

/// Takes an amount from each flagged column.
fn take_where_flagged(row: &[bool], amount: u32, columns: &mut [u32])
    requires enough { length row.now ≤ length columns.old }
    requires room { (band : ℕ) → band < length row.now → cond (slice_index_or row.now band false) amount 0 ≤ slice_index columns.old band }
    ensures { TakesWhereFlagged row.now amount columns.old columns.new }
{
    for band in 0..row.len() {
        columns[band] -= only_if(row[band], amount);
    }
}

/// Empties the columns.
fn clear(across: usize, columns: &mut [u32])
    requires { across ≤ length columns.old }
    ensures { (band : ℕ) → band < across → slice_index columns.new band ≡ 0 }
{
    for band in 0..across {
        columns[band] = 0;
    }
}

/// Sets the columns to what the window of rows holds that begins at row 0.
pub(crate) fn open_columns(
    across: usize,
    ys: &[u16],
    flags: &[bool],
    size: u32,
    columns: &mut [u32],
)
    requires edges { AreEdges ys.now }
    requires cells { length flags.now ≡ bands ys.now * across }
    requires enough { across ≤ length columns.old }
    ensures { AreColumns across ys.now flags.now size 0 columns.new }
{
    clear(across, columns);
    for row in 0..ys.len() - 1 {
        let amount = overlap(ys, row, size);
        add_where_flagged(row_of(flags, across, row), amount, columns);
    }
}

/// Brings the columns from a window of rows to the one a stride further on.
pub(crate) fn slide_columns(
    across: usize,
    ys: &[u16],
    flags: &[bool],
    window: &Window,
    stride: u32,
    columns: &mut [u32],
)
    requires edges { AreEdges ys.now }
    requires cells { length flags.now ≡ bands ys.now * across }
    requires window { IsWindow ys.now window.now }
    requires stride { IsStride ys.now window.now stride }
    requires columns { AreColumns across ys.now flags.now window.now.size window.now.place columns.old }
    ensures { AreColumns across ys.now flags.now window.now.size (window.now.place + stride) columns.new }
{
    add_where_flagged(row_of(flags, across, window.next), stride, columns);
    take_where_flagged(row_of(flags, across, window.first), stride, columns);
}
