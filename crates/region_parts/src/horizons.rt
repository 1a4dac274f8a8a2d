// The horizon of each cell: that of the layers which meet it.
ghost use Rattle.std.specs.Prelude.{◌+◌, ◌<◌, length, IfOk};
ghost use Rattle.page_model.specs.ValidScene.{IsValid};
ghost use Rattle.region_split.specs.Marks.{frames_in};
ghost use Rattle.region_parts.specs.Needs.{AreAllFirst, AreHorizonsBefore, IsCutByNeeds, IsPartedOr};

use crate::areas::areas_of;
use crate::joining::join_met;
use crate::meeting::meet_some_cell;
use crate::needs::{Needs, layers_of};
use crate::types::PartFault;
use crate::work::is_little_work;
use page_model::{NoMemory, Scene, Setup};
use period_frames::Horizon;
use region_split::Cuts;
use std::alloc::Global;

/// The horizons of so many cells that no layer meets yet.
fn first_horizons(alloc: Global, cells: u32) -> Result<Vec<Horizon>, NoMemory>
    ensures { IfOk result (λ horizons. AreAllFirst cells horizons.items) }
{
    Ok(vec![in alloc; Horizon::of_none(); cells as usize]?)
}

/// Joins a layer's horizon with that of each cell that it meets. A layer that meets some cell, and needs more frames
/// than so many cells may, is given up at once: so no more is looked at than cells times frames.
fn join_layer(
    horizons: &mut [Horizon],
    alloc: Global,
    scene: &Scene,
    setup: &Setup,
    cuts: &Cuts,
    needs: &Needs,
    number: u16,
) -> Result<(), PartFault>
    requires valid { IsValid scene.now }
    requires there { number < length scene.now.layers }
    requires cut { IsCutByNeeds scene.now setup.now needs.now.horizons.items needs.now.frames.items cuts.now }
    requires before { AreHorizonsBefore scene.now setup.now (frames_in needs.now.frames.items) cuts.now number
        horizons.old }
    ensures { IsPartedOr scene.now setup.now (λ _. AreHorizonsBefore scene.now setup.now
        (frames_in needs.now.frames.items) cuts.now (number + 1) horizons.new) result }
{
    // Neither is 0, so each endless animation's cycle takes time, and there is a period.
    let _num = setup.num();
    let _den = setup.den();
    let own = needs.horizon_of(number);
    let frames = needs.frames_of(number);
    let areas = areas_of(alloc, scene, setup, number, frames)?;
    if !is_little_work(cuts.cells(), frames, setup) && meet_some_cell(cuts, areas.as_slice()) {
        return Err(PartFault::NotApart);
    }
    if !join_met(horizons, cuts, areas.as_slice(), own) {
        return Err(PartFault::NotApart);
    }
    Ok(())
}

/// The horizons of all cells.
pub(crate) fn horizons_of_cells(
    alloc: Global,
    scene: &Scene,
    setup: &Setup,
    cuts: &Cuts,
    needs: &Needs,
) -> Result<Vec<Horizon>, PartFault>
    requires valid { IsValid scene.now }
    requires cut { IsCutByNeeds scene.now setup.now needs.now.horizons.items needs.now.frames.items cuts.now }
    ensures { IsPartedOr scene.now setup.now (λ horizons. AreHorizonsBefore scene.now setup.now
        (frames_in needs.now.frames.items) cuts.now (length scene.now.layers) horizons.items) result }
{
    // Each cell needs one frame at least.
    if !is_little_work(cuts.cells(), 1, setup) {
        return Err(PartFault::NotApart);
    }
    let mut horizons = first_horizons(alloc, cuts.cells())?;
    for number in 0..layers_of(scene) {
        join_layer(
            horizons.as_mut_slice(),
            alloc,
            scene,
            setup,
            cuts,
            needs,
            number,
        )?;
    }
    Ok(horizons)
}
