// The frames that have to be looked at.
ghost use Rattle.std.specs.Prelude.{Some, ◌≡◌, ◌+◌, ◌<◌, ◌≤◌, ◌++◌, [], List, length, slice_get, IfSome, IfNone};
ghost use Rattle.std.specs.List.{items_where_true};
ghost use Rattle.page_model.specs.declared.animation.Anim.{Anim as Animation};
ghost use Rattle.page_model.specs.declared.scene.Layer.{Layer as Element};
ghost use Rattle.page_model.specs.Horizon.{IsHorizon, all_animations, animations_of};
ghost use Rattle.page_model.specs.Time.{HasFrames};
ghost use Rattle.page_model.specs.ValidScene.{IsValid};
ghost use Rattle.page_model.specs.Viewing.{Viewing};
ghost use Rattle.period_frames.specs.Needed.{AreEnough, LayerRepeats, NeedsMore};
ghost use Rattle.period_frames.specs.Repeats.{IsRepeat, IsShortHorizon};

use crate::periods::MOST;
use crate::repeats::Repeat;
use page_model::{Scene, Setup};

/// The least frame by which all animations have settled, and the least number of frames after which all that are endless
/// repeat.
#[derive(Clone, Copy, Debug, PartialEq, Eq)]
pub struct Horizon {
    pub settled: u32,
    pub period: u32,
}

impl Horizon {
    /// The horizon of no animation: it has settled at once, and repeats after one frame.
    pub fn of_none() -> Horizon
        ensures horizon { (setup : Viewing) → IsHorizon setup [] result.settled result.period }
        ensures few { IsShortHorizon result }
    {
        Horizon {
            settled: 0,
            period: 1,
        }
    }

    /// The horizon of both's animations, `None` exactly where the sum of its frames is more than 100,000.
    pub fn joined(self, other: Horizon) -> Option<Horizon>
        requires own { IsShortHorizon self }
        requires others { IsShortHorizon other }
        ensures horizon { (setup : Viewing) (some more : List Animation) → IsHorizon setup some self.settled self.period
            → IsHorizon setup more other.settled other.period
            → IfSome result (λ h. IsHorizon setup (some ++ more) h.settled h.period) }
        ensures few { IfSome result IsShortHorizon }
        ensures many { (setup : Viewing) (some more : List Animation) → HasFrames setup
            → IsHorizon setup some self.settled self.period → IsHorizon setup more other.settled other.period
            → IfNone result (NeedsMore setup (some ++ more)) }
    {
        horizon_of(Repeat::known(self).joined(Repeat::known(other)))
    }
}

/// What is known of some animations as their horizon, where it is at most so many frames.
fn horizon_of(all: Repeat) -> Option<Horizon>
    ensures horizon { (setup : Viewing) (anims : List Animation) → IsRepeat setup anims all
        → IfSome result (λ h. IsHorizon setup anims h.settled h.period) }
    ensures few { IfSome result IsShortHorizon }
    ensures many { (setup : Viewing) (anims : List Animation) → HasFrames setup → IsRepeat setup anims all
        → IfNone result (NeedsMore setup anims) }
{
    let settled = all.settled;
    let period = all.period?;
    if settled.saturating_add(period) > MOST {
        return None;
    }
    Some(Horizon { settled, period })
}

/// The settled frame and the period of a scene's animations, `None` exactly where their sum is more than 100,000.
pub fn needed(scene: &Scene, setup: &Setup) -> Option<Horizon>
    requires { IsValid scene.now }
    ensures horizon { IfSome result (λ h. IsHorizon setup.now (all_animations scene.now) h.settled h.period) }
    ensures few { IfSome result (λ h. h.settled + h.period ≤ 100000) }
    ensures many { IfNone result (NeedsMore setup.now (all_animations scene.now)) }
    ensures for_ever { IfSome result (λ h. AreEnough scene.now setup.now (h.settled + h.period)) }
{
    // Neither is 0, so each endless animation's cycle takes time, and there is a period.
    let _num = setup.num();
    let _den = setup.den();
    horizon_of(Repeat::of_layers(scene.layers.as_slice(), setup))
}

/// The settled frame and the period of one layer's animations, `None` exactly where their sum is more than 100,000. From
/// the settled frame on the layer does the same again after each period, whatever other layers do.
pub fn needed_of_layer(scene: &Scene, setup: &Setup, number: u16) -> Option<Horizon>
    requires valid { IsValid scene.now }
    requires there { number < length scene.now.layers }
    ensures horizon { (l : Element) → slice_get scene.now.layers number ≡ Some l
        → IfSome result (λ h. IsHorizon setup.now l.anims h.settled h.period) }
    ensures few { IfSome result (λ h. h.settled + h.period ≤ 100000) }
    ensures many { (l : Element) → slice_get scene.now.layers number ≡ Some l
        → IfNone result (NeedsMore setup.now l.anims) }
    ensures repeats { (l : Element) → slice_get scene.now.layers number ≡ Some l
        → IfSome result (λ h. LayerRepeats scene.now setup.now l h.settled h.period) }
{
    let _num = setup.num();
    let _den = setup.den();
    let layer = &scene.layers.as_slice()[usize::from(number)];
    horizon_of(Repeat::of_animations(layer.anims.as_slice(), setup))
}

/// The settled frame and the period of the animations of some layers, those that are chosen by number, `None` exactly where their
/// sum is more than 100,000.
pub fn needed_of(scene: &Scene, setup: &Setup, chosen: &[bool]) -> Option<Horizon>
    requires valid { IsValid scene.now }
    requires one_each { length chosen.now ≡ length scene.now.layers }
    ensures horizon { IfSome result (λ h. IsHorizon setup.now (animations_of (items_where_true chosen.now scene.now.layers))
        h.settled h.period) }
    ensures few { IfSome result (λ h. h.settled + h.period ≤ 100000) }
    ensures many { IfNone result (NeedsMore setup.now (animations_of (items_where_true chosen.now scene.now.layers))) }
{
    let _num = setup.num();
    let _den = setup.den();
    horizon_of(Repeat::of_chosen(scene.layers.as_slice(), chosen, setup))
}
