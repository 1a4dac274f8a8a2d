// The part of a cell that lies in the rectangle.
ghost use Rattle.std.specs.Prelude.{◌+◌, ◌≤◌};
ghost use Rattle.witness_make.specs.Clip.{IsClip, IsCut, IsEndOf, IsFirstOf};

use region_split::Rect;

/// The width of the rectangle, in pixels.
const WIDTH: u16 = 341;

/// The height of the rectangle, in pixels.
const HEIGHT: u16 = 256;

/// Places of a side, from the first one on.
#[derive(Clone, Copy)]
pub(crate) struct Band {
    pub(crate) start: u16,
    pub(crate) size: u16,
}

/// The first place that isn't before a position.
fn first_from(from: i32) -> u32
    ensures { IsFirstOf from result }
{
    if from < 0 {
        return 0;
    }
    from.unsigned_abs()
}

/// The first place behind so many from a position on.
fn end_from(from: i32, span: u16) -> u32
    ensures { IsEndOf from span result }
{
    if from < 0 {
        return u32::from(span).saturating_sub(from.unsigned_abs());
    }
    from.unsigned_abs() + u32::from(span)
}

/// The places that are among so many from a start on, and among so many from a position on.
fn clip(start: u16, size: u16, from: i32, span: u16) -> Option<Band>
    requires { start + size ≤ 4096 }
    ensures { IsClip start size from span result }
{
    let low = u32::from(start).max(first_from(from));
    let high = (u32::from(start) + u32::from(size)).min(end_from(from, span));
    if high <= low {
        return None;
    }
    Some(Band {
        start: low as u16,
        size: (high - low) as u16,
    })
}

/// The pixels of a cell that lie in the rectangle at a position.
pub(crate) fn cut_to(cell: Rect, x: i32, y: i32) -> Option<Rect>
    requires columns { cell.x + cell.width ≤ 4096 }
    requires rows { cell.y + cell.height ≤ 4096 }
    ensures { IsCut x y cell result }
{
    let Some(columns) = clip(cell.x, cell.width, x, WIDTH) else {
        return None;
    };
    let Some(rows) = clip(cell.y, cell.height, y, HEIGHT) else {
        return None;
    };
    Some(Rect {
        x: columns.start,
        y: rows.start,
        width: columns.size,
        height: rows.size,
    })
}
