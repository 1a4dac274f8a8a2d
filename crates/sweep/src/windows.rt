// Windows with too many flagged pixels.
ghost use Rattle.std.specs.Prelude.{ℕ, ◌≡◌, ◌<◌, ◌↔◌, IsNone, IsTrue, length, slice_index};
ghost use Rattle.page_model.specs.Cells.{cells_between};
ghost use Rattle.page_model.specs.declared.scene.Scene.{Scene as Page};
ghost use Rattle.page_model.specs.declared.setup.Setup.{Setup as Viewing};
ghost use Rattle.region_split.specs.Cutting.{Edges};
ghost use Rattle.sweep.specs.declared.windows.Sort.TheVariants.{Possible, Sure};
ghost use Rattle.sweep.specs.Few.{AreNested, AreUnflagged, IsNested, IsUnflagged};
ghost use Rattle.sweep.specs.Swept.{IsFoundIn, IsTold};
ghost use Rattle.sweep.specs.Told.{AreLookedAt, AreMarksOf, HaveFlags, IsFinding, IsLookedAt, spread, told};

use crate::types::{Reason, Verdict};
use cell_groups::Groups;
use flash_count::Flag;
use page_model::BadWindow;
use region_split::Cuts;
use window_area::{Best, greatest_above};

/// A quarter of the 341 by 256 rectangle, in pixels.
const QUARTER: u32 = 21_824;

/// Which flags are asked.
#[derive(Clone, Copy)]
enum Sort {
    Possible,
    Sure,
}

impl Sort {
    fn of(self, flag: Flag) -> bool
        ensures { result ≡ told self flag }
    {
        match self {
            Sort::Possible => flag.possible,
            Sort::Sure => flag.sure,
        }
    }
}

/// The first windows of each sort in which the rectangle holds more than a quarter of flagged pixels, of those that
/// ended so far.
#[derive(Clone, Copy)]
pub(crate) struct Found {
    pub(crate) sure: Option<BadWindow>,
    pub(crate) possible: Option<BadWindow>,
}

impl Found {
    /// The verdict that is told by what was found in so many windows.
    pub(crate) fn verdict(self, windows: u32) -> Verdict
        ensures { (scene : Page) (setup : Viewing) (edges : Edges) → IsFoundIn scene setup edges windows self
            → IsTold scene setup edges windows result }
    {
        if let Some(window) = self.sure {
            return Verdict::Fail(window);
        }
        match self.possible {
            Some(window) => Verdict::Undecided(Reason::Enclosure {
                start: window.start,
                x: window.x,
                y: window.y,
            }),
            None => Verdict::Pass {
                frames: windows,
                apart: false,
            },
        }
    }
}

/// Marks the cells whose groups are flagged.
fn mark(sort: Sort, groups: &[u32], flags: &[Flag], marks: &mut [bool])
    requires all { length groups.now ≡ length marks.old }
    requires each { (cell : ℕ) → cell < length groups.now → slice_index groups.now cell < length flags.now }
    ensures { AreMarksOf sort groups.now flags.now (length marks.old) marks.new }
{
    for cell in 0..marks.len() {
        marks[cell] = sort.of(flags[groups[cell] as usize]);
    }
}

/// The window that starts at a frame, by where the rectangle first holds the most.
fn window_at(start: u32, best: Best) -> BadWindow
    ensures start { result.start ≡ start }
    ensures x { result.x ≡ best.x }
    ensures y { result.y ≡ best.y }
{
    BadWindow {
        start,
        x: best.x,
        y: best.y,
    }
}

/// The window that starts at a frame and has these flags of the groups, where the rectangle holds more than a quarter
/// of flagged pixels: it is told by where the rectangle first holds the most.
fn many_in(
    sort: Sort,
    cuts: &Cuts,
    groups: &Groups,
    flags: &[Flag],
    start: u32,
    marks: &mut [bool],
    work: &mut [u32],
) -> Option<BadWindow>
    requires flags { HaveFlags cuts.now groups.now flags.now }
    requires marks { length marks.old ≡ cells_between cuts.now.xs cuts.now.ys }
    requires work { length work.old ≡ cells_between cuts.now.xs cuts.now.ys }
    ensures { IsFinding sort cuts.now (spread groups.now flags.now) start result }
{
    mark(sort, groups.of_cells(), flags, marks);
    let best = greatest_above(QUARTER, cuts.xs(), cuts.ys(), marks, work)?;
    Some(window_at(start, best))
}

/// What was found before, or else what is found in the window that starts at a frame and has these flags.
fn look_for(
    sort: Sort,
    found: Option<BadWindow>,
    cuts: &Cuts,
    groups: &Groups,
    flags: &[Flag],
    start: u32,
    marks: &mut [bool],
    work: &mut [u32],
) -> Option<BadWindow>
    requires flags { HaveFlags cuts.now groups.now flags.now }
    requires marks { length marks.old ≡ cells_between cuts.now.xs cuts.now.ys }
    requires work { length work.old ≡ cells_between cuts.now.xs cuts.now.ys }
    ensures { IsLookedAt sort cuts.now (spread groups.now flags.now) start found result }
{
    match found {
        Some(window) => Some(window),
        None => many_in(sort, cuts, groups, flags, start, marks, work),
    }
}

fn is_unflagged(flag: Flag) -> bool
    ensures { IsTrue result ↔ IsUnflagged flag }
{
    !flag.possible && !flag.sure
}

fn is_nested(flag: Flag) -> bool
    ensures { IsTrue result ↔ IsNested flag }
{
    flag.possible || !flag.sure
}

/// Whether nothing is flagged, of neither sort.
fn are_unflagged(flags: &[Flag]) -> bool
    ensures { IsTrue result ↔ AreUnflagged flags.now }
{
    for flag in flags {
        if !is_unflagged(*flag) {
            return false;
        }
    }
    true
}

/// Whether all that is surely flagged is possibly flagged too.
fn are_nested(flags: &[Flag]) -> bool
    ensures { IsTrue result ↔ AreNested flags.now }
{
    for flag in flags {
        if !is_nested(*flag) {
            return false;
        }
    }
    true
}

/// Whether no window with many possible flags was found, and the sure ones are among them.
fn are_few(possible: Option<BadWindow>, flags: &[Flag]) -> bool
    ensures { IsTrue result ↔ (IsNone possible × AreNested flags.now) }
{
    if possible.is_some() {
        return false;
    }
    are_nested(flags)
}

/// Looks at the window that starts at a frame and has these flags, for each sort of which none was found before. The
/// possible flags are asked first: where they are few, the sure ones among them are few too, and aren't asked.
fn look_at_flagged(
    found: Found,
    cuts: &Cuts,
    groups: &Groups,
    flags: &[Flag],
    start: u32,
    marks: &mut [bool],
    work: &mut [u32],
) -> Found
    requires flags { HaveFlags cuts.now groups.now flags.now }
    requires marks { length marks.old ≡ cells_between cuts.now.xs cuts.now.ys }
    requires work { length work.old ≡ cells_between cuts.now.xs cuts.now.ys }
    ensures { AreLookedAt cuts.now (spread groups.now flags.now) start found result }
{
    let possible = look_for(
        Sort::Possible,
        found.possible,
        cuts,
        groups,
        flags,
        start,
        marks,
        work,
    );
    if are_few(possible, flags) {
        return found;
    }
    let sure = look_for(
        Sort::Sure,
        found.sure,
        cuts,
        groups,
        flags,
        start,
        marks,
        work,
    );
    Found { sure, possible }
}

/// Looks at the window that starts at a frame and has these flags, for each sort of which none was found before. Where
/// nothing is flagged, nothing is asked.
pub(crate) fn look(
    found: Found,
    cuts: &Cuts,
    groups: &Groups,
    flags: &[Flag],
    start: u32,
    marks: &mut [bool],
    work: &mut [u32],
) -> Found
    requires flags { HaveFlags cuts.now groups.now flags.now }
    requires marks { length marks.old ≡ cells_between cuts.now.xs cuts.now.ys }
    requires work { length work.old ≡ cells_between cuts.now.xs cuts.now.ys }
    ensures sure { IsLookedAt Sure cuts.now (spread groups.now flags.now) start found.sure result.sure }
    ensures possible { IsLookedAt Possible cuts.now (spread groups.now flags.now) start found.possible result.possible }
{
    if are_unflagged(flags) {
        return found;
    }
    look_at_flagged(found, cuts, groups, flags, start, marks, work)
}
