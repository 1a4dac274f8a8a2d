// The tints of cells in a frame, by those of the frame before it.
ghost use Rattle.std.specs.Prelude.{◌≡◌, ◌-◌, ◌<◌, length, slice_index};
ghost use Rattle.page_model.specs.TintOf as definition;
ghost use Rattle.page_model.specs.ValidScene.{IsValid};
ghost use Rattle.frame_state.specs.States.{states_as};
ghost use Rattle.paint_blend.specs.Kept.{AreAllReady, AreChanged};
ghost use Rattle.cell_tints.specs.Tints.{AreStatesIn, AreTintsBy, AreTintsIn, cells_of};

use crate::tints::MOST_LAYERS;
use frame_state::{LayerState, states_at};
use page_model::{Scene, Setup, Tint};
use paint_blend::{changed_in, is_kept, tint_of};
use region_split::Cuts;

/// The tint of a pixel by the states of the layers, where it had a tint by the states before them. It is painted anew
/// only where a layer that changed may be there.
fn tint_after(
    scene: &Scene,
    before: &[LayerState],
    states: &[LayerState],
    changed: &[u16],
    x: u16,
    y: u16,
    tint: Tint,
) -> Tint
    requires valid { IsValid scene.now }
    requires long { length states.now ≡ length scene.now.layers }
    requires same { length before.now ≡ length states.now }
    requires earlier { AreAllReady before.now }
    requires later { AreAllReady states.now }
    requires changed { AreChanged before.now states.now changed.now }
    requires was { tint ≡ definition.tint_of scene.now (states_as before.now) x y }
    ensures { result ≡ definition.tint_of scene.now (states_as states.now) x y }
{
    if is_kept(before, states, changed, x, y) {
        return tint;
    }
    tint_of(scene, states, x, y)
}

/// Writes the tints of some cells by the states of the layers over those by the states before them.
fn paint_changed(
    scene: &Scene,
    cuts: &Cuts,
    chosen: &[u32],
    before: &[LayerState],
    states: &[LayerState],
    changed: &[u16],
    tints: &mut [Tint],
)
    requires valid { IsValid scene.now }
    requires known { (i : _) → i < length chosen.now → slice_index chosen.now i < cells_of cuts.now }
    requires long { length states.now ≡ length scene.now.layers }
    requires same { length before.now ≡ length states.now }
    requires earlier { AreAllReady before.now }
    requires later { AreAllReady states.now }
    requires changed { AreChanged before.now states.now changed.now }
    requires all { length tints.old ≡ length chosen.now }
    requires were { AreTintsBy scene.now cuts.now chosen.now before.now tints.old }
    ensures { AreTintsBy scene.now cuts.now chosen.now states.now tints.new }
{
    for i in 0..chosen.len() {
        let cell = cuts.cell(chosen[i]);
        tints[i] = tint_after(scene, before, states, changed, cell.x, cell.y, tints[i]);
    }
}

/// Writes the tints of some cells in a frame over those in the frame before it, and the states of the layers beside
/// the states before. A cell is painted anew only where a layer whose state changed may be there, so a frame in which
/// nothing changed costs little more than its states. It takes no memory.
pub fn next_tints(
    scene: &Scene,
    setup: &Setup,
    cuts: &Cuts,
    chosen: &[u32],
    frame: u32,
    before: &[LayerState],
    states: &mut [LayerState],
    tints: &mut [Tint],
)
    requires valid { IsValid scene.now }
    requires known { (i : _) → i < length chosen.now → slice_index chosen.now i < cells_of cuts.now }
    requires later { 0 < frame }
    requires layers { length states.old ≡ length scene.now.layers }
    requires all { length tints.old ≡ length chosen.now }
    requires were { AreStatesIn scene.now setup.now (frame - 1) before.now }
    requires tints { AreTintsIn scene.now setup.now cuts.now (frame - 1) chosen.now (length chosen.now) tints.old }
    ensures states { AreStatesIn scene.now setup.now frame states.new }
    ensures tints { AreTintsIn scene.now setup.now cuts.now frame chosen.now (length chosen.now) tints.new }
{
    states_at(scene, setup, u64::from(frame), states);
    let mut numbers = [0; MOST_LAYERS];
    let count = changed_in(before, states, &mut numbers);
    if count == 0 {
        return;
    }
    paint_changed(
        scene,
        cuts,
        chosen,
        before,
        states,
        &numbers[..count],
        tints,
    );
}
