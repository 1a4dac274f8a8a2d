// Regions that are possibly flagged in one of their own windows.
ghost use Rattle.std.specs.Prelude.{◌≡◌, ◌↔◌, ◌+◌, ◌*◌, ◌<◌, ◌≤◌, IfOk, IsTrue, length};
ghost use Rattle.page_model.specs.Cells.{cells_between};
ghost use Rattle.apart_judge.specs.Judging.{AreFewFrames, AreMarked, HasPossible, IsMostMarked, needed_at};

use flash_count::Flag;
use page_model::NoMemory;
use region_parts::Parted;
use std::alloc::Global;
use window_area::greatest;

/// Whether one of so many flags from a place on is a possible one.
fn some_possible(flags: &[Flag], from: usize, needed: u32) -> bool
    requires { from + needed ≤ length flags.now }
    ensures { IsTrue result ↔ HasPossible flags.now from needed }
{
    for start in 0..needed as usize {
        if flags[from + start].possible {
            return true;
        }
    }
    false
}

/// How many frames a region needs.
fn needed_in(parted: &Parted, cell: u32) -> u32
    requires few { AreFewFrames parted.now }
    requires known { cell < cells_between parted.now.cuts.xs parted.now.cuts.ys }
    ensures { result ≡ needed_at parted.now cell }
{
    let horizon = parted.horizon(cell);
    horizon.settled + horizon.period
}

/// Marks the regions that are possibly flagged in a window that they need, of flags that are told region by region.
fn mark(parted: &Parted, flags: &[Flag], marks: &mut [bool])
    requires few { AreFewFrames parted.now }
    requires flags { length flags.now ≡ cells_between parted.now.cuts.xs parted.now.cuts.ys * parted.now.frames }
    requires marks { length marks.old ≡ cells_between parted.now.cuts.xs parted.now.cuts.ys }
    ensures { AreMarked parted.now flags.now marks.new }
{
    let windows = parted.frames() as usize;
    for cell in 0..parted.cells() {
        let place = cell as usize;
        marks[place] = some_possible(flags, place * windows, needed_in(parted, cell));
    }
}

/// The most that the rectangle holds of such regions; marks and work are written over.
fn most_in(parted: &Parted, flags: &[Flag], marks: &mut [bool], work: &mut [u32]) -> u32
    requires few { AreFewFrames parted.now }
    requires flags { length flags.now ≡ cells_between parted.now.cuts.xs parted.now.cuts.ys * parted.now.frames }
    requires marks { length marks.old ≡ cells_between parted.now.cuts.xs parted.now.cuts.ys }
    requires work { length work.old ≡ cells_between parted.now.cuts.xs parted.now.cuts.ys }
    ensures { IsMostMarked parted.now flags.now result }
{
    mark(parted, flags, marks);
    greatest(parted.xs(), parted.ys(), marks, work).area
}

/// The same, in memory that is taken for it.
pub(crate) fn most_marked(alloc: Global, parted: &Parted, flags: &[Flag]) -> Result<u32, NoMemory>
    requires few { AreFewFrames parted.now }
    requires flags { length flags.now ≡ cells_between parted.now.cuts.xs parted.now.cuts.ys * parted.now.frames }
    ensures { IfOk result (λ most. IsMostMarked parted.now flags.now most) }
{
    let cells = parted.cells() as usize;
    let mut marks = vec![in alloc; false; cells]?;
    let mut work = vec![in alloc; 0u32; cells]?;
    Ok(most_in(parted, flags, marks.as_mut_slice(), work.as_mut_slice()))
}
