// How many flagged pixels there are.
ghost use Rattle.std.specs.Prelude.{◌≡◌, ◌*◌, ◌≤◌, length};
ghost use Rattle.window_area.specs.Edges.{AreEdges, bands};
ghost use Rattle.window_area.specs.FlaggedArea.{HoldsNoMoreThanAll};
ghost use Rattle.window_area.specs.FlaggedArea as counted;
ghost use Rattle.window_area.specs.Sliding.{row_width};

use crate::columns::{only_if, row_of};

/// How many columns of pixels are flagged in a row of cells.
pub(crate) fn flagged_width(xs: &[u16], row: &[bool]) -> u32
    requires edges { AreEdges xs.now }
    requires whole { length row.now ≡ bands xs.now }
    ensures width { result ≡ row_width xs.now row.now }
    ensures small { result ≤ 4096 }
{
    let mut width = 0;
    for band in 0..row.len() {
        width += only_if(row[band], u32::from(xs[band + 1] - xs[band]));
    }
    width
}

/// The number of flagged pixels in the whole viewport, in time that grows with the cells alone. The rectangle never
/// holds more, so where the total is small no rectangle has to be looked for. The edges cut the viewport into cells,
/// which are flagged row by row from the upper left.
pub fn total_area(xs: &[u16], ys: &[u16], flags: &[bool]) -> u32
    requires columns { AreEdges xs.now }
    requires rows { AreEdges ys.now }
    requires cells { length flags.now ≡ bands ys.now * bands xs.now }
    ensures total { result ≡ counted.total_area xs.now ys.now flags.now }
    ensures law { HoldsNoMoreThanAll xs.now ys.now flags.now }
{
    let across = xs.len() - 1;
    let mut area = 0;
    for row in 0..ys.len() - 1 {
        let height = u32::from(ys[row + 1] - ys[row]);
        area += height * flagged_width(xs, row_of(flags, across, row));
    }
    area
}
