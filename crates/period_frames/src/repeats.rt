// When some animations have settled, and after how many frames they repeat.
ghost use Rattle.std.specs.Option.{ForSome};
ghost use Rattle.period_frames.specs.Periods.{IsShort};

use crate::frames::Horizon;
use crate::periods::{joined_periods, period_of};
use crate::settling::settled_frame;
use page_model::{Anim, Layer, Setup};

/// The settled frame of some animations, and their period, or none where it is more than 100,000 frames.
#[derive(Clone, Copy)]
pub(crate) struct Repeat {
    pub(crate) settled: u32,
    pub(crate) period: Option<u32>,
    ghost short: { ForSome period IsShort },
}

impl Repeat {
    ghost use Rattle.std.specs.Prelude.{◌≡◌, ◌++◌, ◌∷◌, [], List, All, length};
    ghost use Rattle.std.specs.List.{items_where_true};
    ghost use Rattle.page_model.specs.declared.animation.Anim.{Anim};
    ghost use Rattle.page_model.specs.Horizon.{IsHorizon, animations_of};
    ghost use Rattle.page_model.specs.Viewing.{Viewing};
    ghost use Rattle.anim_timing.specs.Timed.{IsTimed};
    ghost use Rattle.period_frames.specs.Repeats.{IsRepeat, IsShortHorizon};

    /// That of no animation: it has settled at once, and repeats after one frame.
    fn of_none() -> Repeat
        ensures { (setup : Viewing) → IsRepeat setup [] result }
    {
        Repeat {
            settled: 0,
            period: Some(1),
        }
    }

    /// That of animations whose horizon is known.
    pub(crate) fn known(horizon: Horizon) -> Repeat
        requires { IsShortHorizon horizon }
        ensures { (setup : Viewing) (anims : List Anim) → IsHorizon setup anims horizon.settled horizon.period
            → IsRepeat setup anims result }
    {
        Repeat {
            settled: horizon.settled,
            period: Some(horizon.period),
        }
    }

    /// That of one animation.
    fn of_animation(anim: &Anim, setup: &Setup) -> Repeat
        requires { IsTimed anim.now }
        ensures { IsRepeat setup.now (anim.now ∷ []) result }
    {
        Repeat {
            settled: settled_frame(anim, setup),
            period: period_of(anim, setup),
        }
    }

    /// That of both's animations.
    pub(crate) fn joined(self, other: Repeat) -> Repeat
        ensures { (setup : Viewing) (some more : List Anim) → IsRepeat setup some self → IsRepeat setup more other
            → IsRepeat setup (some ++ more) result }
    {
        Repeat {
            settled: self.settled.max(other.settled),
            period: joined_periods(self.period, other.period),
        }
    }

    /// That of all of some animations.
    pub(crate) fn of_animations(anims: &[Anim], setup: &Setup) -> Repeat
        requires { All IsTimed anims.now }
        ensures { IsRepeat setup.now anims.now result }
    {
        let mut all = Repeat::of_none();
        for anim in anims {
            all = all.joined(Repeat::of_animation(anim, setup));
        }
        all
    }

    /// That of the animations of some layers.
    pub(crate) fn of_layers(layers: &[Layer], setup: &Setup) -> Repeat
        requires { All (λ layer. All IsTimed layer.anims) layers.now }
        ensures { IsRepeat setup.now (animations_of layers.now) result }
    {
        let mut all = Repeat::of_none();
        for layer in layers {
            all = all.joined(Repeat::of_animations(layer.anims.as_slice(), setup));
        }
        all
    }
    /// That of the animations of some layers of these, those that are chosen.
    pub(crate) fn of_chosen(layers: &[Layer], chosen: &[bool], setup: &Setup) -> Repeat
        requires timed { All (λ layer. All IsTimed layer.anims) layers.now }
        requires one_each { length chosen.now ≡ length layers.now }
        ensures { IsRepeat setup.now (animations_of (items_where_true chosen.now layers.now)) result }
    {
        let mut all = Repeat::of_none();
        for i in 0..layers.len() {
            if chosen[i] {
                all = all.joined(Repeat::of_animations(layers[i].anims.as_slice(), setup));
            }
        }
        all
    }
}
