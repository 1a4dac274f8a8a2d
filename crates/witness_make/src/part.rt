// The part of one cell.
ghost use Rattle.std.specs.Prelude.{◌+◌, ◌<◌};
ghost use Rattle.page_model.specs.Cells.{cells_between};
ghost use Rattle.page_model.specs.Time.{window_of};
ghost use Rattle.page_model.specs.ValidScene.{IsValid};
ghost use Rattle.region_split.specs.Cutting.{cell_of};
ghost use Rattle.cell_tints.specs.Tints.{AreTintsOfCells};
ghost use Rattle.witness_make.specs.Made.{AreCutsOf, IsPartIn};

use crate::clip::cut_to;
use crate::turns::{NO_TINT, see, told};
use flash_count::chain;
use page_model::{BadWindow, Part, Scene, Setup, Tint};
use region_split::Cuts;

/// The most tints that a window holds.
const MOST: usize = 241;

/// The part of a cell, where it is surely flagged and meets the rectangle. The tints are those of all cells in the frames of the
/// window; of the scene, whose they are, only the contract speaks.
pub(crate) fn part_of(
    scene: &Scene,
    setup: &Setup,
    cuts: &Cuts,
    tints: &[Tint],
    bad: BadWindow,
    number: u32,
) -> Option<Part>
    requires valid { IsValid scene.now }
    requires cut { AreCutsOf scene.now setup.now bad.start cuts.now }
    requires known { number < cells_between cuts.now.xs cuts.now.ys }
    requires seen { AreTintsOfCells scene.now setup.now cuts.now bad.start (window_of setup.now + 1) tints.now }
    ensures { IsPartIn scene.now setup.now bad.start bad.x bad.y (cell_of cuts.now.xs cuts.now.ys number) result }
{
    let _scene = scene;
    let Some(rect) = cut_to(cuts.cell(number), bad.x, bad.y) else {
        return None;
    };
    let mut all = [NO_TINT; MOST];
    let own = &mut all[..usize::from(setup.rate()) + 1];
    see(tints, cuts.cells(), number, own);
    let Some(trace) = chain(own) else {
        return None;
    };
    Some(told(rect, bad.start, trace, own))
}
