// The changes that two tints make, all at once.
ghost use Rattle.std.specs.Prelude.{◌≡◌, ◌↔◌, ◌⊎◌, IsTrue};
ghost use Rattle.page_model.specs.Change.{HasSaturated, IsSingle};
ghost use Rattle.tint_changes.specs.Made.{IsKnown, IsLightOf, IsNone, MadeByLight, MadeByRed};

use page_model::Tint;
use red_chroma::{has_saturated, red_changes};
use srgb_luma::{luma, rises_below, rises_from};

/// The least and the greatest luminance of a tint.
#[derive(Clone, Copy)]
pub struct Light {
    pub least: u64,
    pub greatest: u64,
}

/// Which changes of one kind two tints make, of luminance or of red: `up` is a rise or a change into red, `down` a fall
/// or a change out of it.
#[derive(Clone, Copy)]
pub struct Made {
    pub up: bool,
    pub down: bool,
    pub surely_up: bool,
    pub surely_down: bool,
}

/// Whether a tint is a single colour.
pub fn is_single(tint: Tint) -> bool
    ensures { IsTrue result ↔ IsSingle tint }
{
    tint.lo == tint.hi
}

/// The light of a tint.
#[inline]
pub fn light_of(tint: Tint) -> Light
    ensures { IsLightOf tint result }
{
    let least = luma(tint.lo);
    if is_single(tint) {
        return Light {
            least,
            greatest: least,
        };
    }
    Light {
        least,
        greatest: luma(tint.hi),
    }
}

/// The tint of the next frame, and what is looked up for it once: between which bounds the light of an earlier tint
/// lies where it rises or falls to this one, and whether some colour of it may be saturated.
#[derive(Clone, Copy)]
pub struct NextTint {
    pub tint: Tint,
    pub rise_below: u64,
    pub fall_from: u64,
    pub sure_rise_below: u64,
    pub sure_fall_from: u64,
    pub is_red: bool,
}

/// A tint with its bounds.
pub fn next_tint(tint: Tint) -> NextTint
    ensures tint { result.tint ≡ tint }
    ensures known { IsKnown result }
{
    let light = light_of(tint);
    NextTint {
        tint,
        rise_below: rises_below(light.greatest),
        fall_from: rises_from(light.least),
        sure_rise_below: rises_below(light.least),
        sure_fall_from: rises_from(light.greatest),
        is_red: has_saturated(tint),
    }
}

/// The changes of luminance from an earlier tint to the next one.
#[inline]
pub fn made_by_light(from: Tint, to: &NextTint) -> Made
    requires { IsKnown to.now }
    ensures { MadeByLight from to.now.tint result }
{
    let before = light_of(from);
    Made {
        up: before.least < to.rise_below,
        down: before.greatest >= to.fall_from,
        surely_up: before.greatest < to.sure_rise_below,
        surely_down: before.least >= to.sure_fall_from,
    }
}

/// Whether one of an earlier tint and the next one has a saturated corner. Else no change of red is made between them.
#[inline]
pub fn may_be_red(from: Tint, to: &NextTint) -> bool
    requires { IsKnown to.now }
    ensures { IsTrue result ↔ (HasSaturated from ⊎ HasSaturated to.now.tint) }
{
    to.is_red || has_saturated(from)
}

/// The changes into and out of red from an earlier tint to the next one.
pub fn made_by_red(from: Tint, to: Tint) -> Made
    ensures { MadeByRed from to result }
{
    let red = red_changes(from, to);
    Made {
        up: red.into_possible,
        down: red.out_possible,
        surely_up: red.into_sure,
        surely_down: red.out_sure,
    }
}

/// Whether no change of luminance is made, and none of red.
pub fn are_none(light: Made, red: Made) -> bool
    ensures { IsTrue result ↔ (IsNone light × IsNone red) }
{
    light.is_none() && red.is_none()
}

impl Made {
    /// Whether no change is made.
    #[inline]
    pub fn is_none(self) -> bool
        ensures { IsTrue result ↔ IsNone self }
    {
        !self.up && !self.down && !self.surely_up && !self.surely_down
    }
}
