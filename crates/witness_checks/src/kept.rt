// The states of the layers in a frame, kept for the next part: the parts of one page mostly tell the same frames.
ghost use Rattle.std.specs.Prelude.{◌≡◌, Some, length, take};
ghost use Rattle.page_model.specs.ValidScene.{IsValid};
ghost use Rattle.witness_checks.specs.Kept.{IsKept};

use frame_state::{LayerState, NOTHING, states_at};
use page_model::{Scene, Setup};

/// The most layers that a valid scene has.
const MOST_LAYERS: usize = 65;

/// Where no states are kept yet.
pub(crate) const NO_STATES: KeptStates = KeptStates {
    frame: None,
    states: [NOTHING; MOST_LAYERS],
};

/// The states of all layers, by number, in the frame that is named, if one is.
#[derive(Clone, Copy)]
pub(crate) struct KeptStates {
    frame: Option<u32>,
    states: [LayerState; MOST_LAYERS],
}

impl KeptStates {
    /// Computes the states in a frame, unless they are kept already.
    pub(crate) fn see(&mut self, scene: &Scene, setup: &Setup, frame: u32)
        requires valid { IsValid scene.now }
        requires kept { IsKept scene.now setup.now self.old }
        ensures kept { IsKept scene.now setup.now self.new }
        ensures frame { self.new.frame ≡ Some frame }
    {
        if self.frame == Some(frame) {
            return;
        }
        let states = &mut self.states[..scene.layers.len()];
        states_at(scene, setup, u64::from(frame), states);
        self.frame = Some(frame);
    }

    /// The states that are kept.
    pub(crate) fn states(&self, scene: &Scene) -> &[LayerState]
        requires { IsValid scene.now }
        ensures value { result.now ≡ take (length scene.now.layers) self.now.states }
        ensures all { length result.now ≡ length scene.now.layers }
    {
        &self.states[..scene.layers.len()]
    }
}
