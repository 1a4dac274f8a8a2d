// The flags of all cells in all windows.
ghost use Rattle.std.specs.Prelude.{◌≤◌, IfOk};
ghost use Rattle.page_model.specs.Horizon.{frames_for};
ghost use Rattle.page_model.specs.ValidScene.{IsValid};
ghost use Rattle.cell_flags.specs.Flags.{AreAlikeCells, AreFlags};

use crate::tracked::add_flags;
use cell_tints::tints_of_cells;
use flash_count::Flag;
use page_model::{NoMemory, Scene, Setup};
use region_split::Cuts;
use std::alloc::Global;

/// The flags of all cells of a scene in so many windows, the first of which begins at frame 0: cell by cell, and of each cell
/// window by window. They are those of each pixel of the cell, as the layers cover these alike in the frames of these windows. It takes
/// memory for the tints of all cells in all these frames, six bytes each, and two bytes for each flag.
///
/// # Errors
///
/// `NoMemory` where memory is refused.
pub fn flags_of_cells(
    alloc: Global,
    scene: &Scene,
    setup: &Setup,
    cuts: &Cuts,
    windows: u32,
) -> Result<Vec<Flag>, NoMemory>
    requires valid { IsValid scene.now }
    requires few { windows ≤ 100000 }
    requires cells { AreAlikeCells scene.now setup.now (frames_for setup.now windows) cuts.now }
    ensures { IfOk result (λ flags. AreFlags scene.now setup.now cuts.now windows flags.items) }
{
    let rate = setup.rate();
    let cells = cuts.cells();
    let tints = tints_of_cells(alloc, scene, setup, cuts, 0, windows + u32::from(rate) + 1)?;
    let mut flags = Vec::with_capacity(alloc, cells as usize * windows as usize)?;
    for cell in 0..cells {
        add_flags(&mut flags, tints.as_slice(), rate, cells, cell, windows)?;
    }
    Ok(flags)
}
