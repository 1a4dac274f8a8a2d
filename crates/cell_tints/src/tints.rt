// The tints of all cells, frame by frame.
ghost use Rattle.std.specs.Prelude.{◌≡◌, ◌+◌, ◌^◌, ◌<◌, ◌≤◌, IfOk, OnOk, length, slice_index, take};
ghost use Rattle.page_model.specs.ValidScene.{IsValid};
ghost use Rattle.frame_state.specs.States.{AreInSlots, AreOwn, states_as};
ghost use Rattle.cell_tints.specs.Tints.{AreStatesIn, AreTintsIn, AreTintsOfCells, cells_of};

use frame_state::{LayerState, layer_at, states_at};
use page_model::{NoMemory, Scene, Setup, Tint};
use paint_blend::tint_of;
use region_split::Cuts;
use std::alloc::Global;

/// The most layers that a valid scene has.
pub(crate) const MOST_LAYERS: usize = 65;

/// The states of all layers in a frame, by number, and others behind them.
fn states_in(scene: &Scene, setup: &Setup, frame: u32) -> [LayerState; MOST_LAYERS]
    requires valid { IsValid scene.now }
    ensures room { length scene.now.layers ≤ length result }
    ensures own { AreOwn scene.now setup.now frame (states_as (take (length scene.now.layers) result)) }
    ensures ranges { AreInSlots scene.now (states_as (take (length scene.now.layers) result)) }
{
    let frame = u64::from(frame);
    // The body's state stands at each place until the layer's own is written there.
    let mut all = [layer_at(scene, setup, frame, 0); MOST_LAYERS];
    states_at(scene, setup, frame, &mut all[..scene.layers.len()]);
    all
}

/// Adds the tints of all cells in the frame that is so many after the start.
fn add_frame(
    tints: &mut Vec<Tint>,
    scene: &Scene,
    setup: &Setup,
    cuts: &Cuts,
    start: u32,
    k: u32,
) -> Result<(), NoMemory>
    requires valid { IsValid scene.now }
    requires few { start + k < 2 ^ 32 }
    requires before { AreTintsOfCells scene.now setup.now cuts.now start k tints.old.items }
    ensures { OnOk result (AreTintsOfCells scene.now setup.now cuts.now start (k + 1) tints.new.items) }
{
    let all = states_in(scene, setup, start + k);
    let states = &all[..scene.layers.len()];
    for i in 0..cuts.cells() {
        let cell = cuts.cell(i);
        tints.push(tint_of(scene, states, cell.x, cell.y))?;
    }
    Ok(())
}

/// Writes the tints of some cells in a frame, which are told by their numbers, in their order, and the states of the
/// layers by which they are painted. It takes no memory.
pub fn tints_in_frame(
    scene: &Scene,
    setup: &Setup,
    cuts: &Cuts,
    chosen: &[u32],
    frame: u32,
    states: &mut [LayerState],
    tints: &mut [Tint],
)
    requires valid { IsValid scene.now }
    requires known { (i : _) → i < length chosen.now → slice_index chosen.now i < cells_of cuts.now }
    requires layers { length states.old ≡ length scene.now.layers }
    requires all { length tints.old ≡ length chosen.now }
    ensures states { AreStatesIn scene.now setup.now frame states.new }
    ensures tints { AreTintsIn scene.now setup.now cuts.now frame chosen.now (length chosen.now) tints.new }
{
    states_at(scene, setup, u64::from(frame), states);
    for i in 0..chosen.len() {
        let cell = cuts.cell(chosen[i]);
        tints[i] = tint_of(scene, states, cell.x, cell.y);
    }
}

/// The tints of all cells in so many frames from a start on: frame by frame, and of each frame cell by cell. All
/// memory for them is taken at once: six bytes for each.
///
/// # Errors
///
/// `NoMemory` where memory is refused.
pub fn tints_of_cells(
    alloc: Global,
    scene: &Scene,
    setup: &Setup,
    cuts: &Cuts,
    start: u32,
    frames: u32,
) -> Result<Vec<Tint>, NoMemory>
    requires valid { IsValid scene.now }
    requires few { start + frames ≤ 2 ^ 32 }
    ensures { IfOk result (λ tints. AreTintsOfCells scene.now setup.now cuts.now start frames tints.items) }
{
    let mut tints = Vec::with_capacity(alloc, cuts.cells() as usize * frames as usize)?;
    for k in 0..frames {
        add_frame(&mut tints, scene, setup, cuts, start, k)?;
    }
    Ok(tints)
}
