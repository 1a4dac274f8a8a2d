// What each layer needs by itself.
ghost use Rattle.std.specs.Prelude.{◌≡◌, ◌<◌, ◌+◌, ◌++◌, ◌∷◌, [], OnOk, length};
ghost use Rattle.page_model.specs.ValidScene.{IsValid};
ghost use Rattle.period_frames.specs.Repeats.{IsShortHorizon};
ghost use Rattle.region_split.specs.Marks.{frames_in};
ghost use Rattle.region_parts.specs.Needs.{AreNeeds, IsPartedOr, horizon_in};

use crate::types::PartFault;
use page_model::{NoMemory, Scene, Setup};
use period_frames::{Horizon, needed_of_layer};
use std::alloc::Global;

/// The horizon of each layer, and the frames up to its end.
#[derive(Drop)]
pub(crate) struct Needs {
    pub(crate) horizons: Vec<Horizon>,
    pub(crate) frames: Vec<u32>,
}

impl Needs {
    /// The horizon of a layer.
    pub(crate) fn horizon_of(&self, number: u16) -> Horizon
        requires { number < length self.now.horizons.items }
        ensures { result ≡ horizon_in self.now.horizons.items number }
    {
        self.horizons[usize::from(number)]
    }

    /// The frames up to its end.
    pub(crate) fn frames_of(&self, number: u16) -> u32
        requires { number < length self.now.frames.items }
        ensures { result ≡ frames_in self.now.frames.items number }
    {
        self.frames[usize::from(number)]
    }

    /// Adds those of one layer more.
    fn push(&mut self, horizon: Horizon) -> Result<(), NoMemory>
        requires { IsShortHorizon horizon }
        ensures horizons { OnOk result (self.new.horizons.items ≡ self.old.horizons.items ++ horizon ∷ []) }
        ensures frames { OnOk result
            (self.new.frames.items ≡ self.old.frames.items ++ (horizon.settled + horizon.period) ∷ []) }
    {
        self.horizons.push(horizon)?;
        self.frames.push(horizon.settled + horizon.period)?;
        Ok(())
    }
}

/// How many layers there are.
pub(crate) fn layers_of(scene: &Scene) -> u16
    requires { IsValid scene.now }
    ensures { result ≡ length scene.now.layers }
{
    scene.layers.len() as u16
}

/// What each layer of a scene needs. A scene isn't apart where one needs more than 100,000 frames.
pub(crate) fn needs_of(alloc: Global, scene: &Scene, setup: &Setup) -> Result<Needs, PartFault>
    requires { IsValid scene.now }
    ensures { IsPartedOr scene.now setup.now
        (λ needs. AreNeeds scene.now setup.now needs.horizons.items needs.frames.items) result }
{
    let mut needs = Needs {
        horizons: Vec::new(alloc),
        frames: Vec::new(alloc),
    };
    for number in 0..layers_of(scene) {
        let Some(horizon) = needed_of_layer(scene, setup, number) else {
            return Err(PartFault::NotApart);
        };
        needs.push(horizon)?;
    }
    Ok(needs)
}
