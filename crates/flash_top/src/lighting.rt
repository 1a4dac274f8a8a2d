// What a colour comes to by `light`: its numbers.
ghost use Rattle.flash_top.specs.Lighting.{IsLit};

use crate::outcome::{Light, Outcome};
use page_model::Rgb;
use red_chroma::saturated;
use srgb_luma::{lin, luma};

/// How light a colour is.
pub(crate) fn light(colour: Rgb) -> Outcome
    ensures { IsLit colour result }
{
    Outcome::Lit(Light {
        red: lin(colour.r),
        green: lin(colour.g),
        blue: lin(colour.b),
        luma: luma(colour),
        saturated: saturated(colour),
    })
}
