// Saturated red, of a colour and of the corners of a tint.
ghost use Rattle.std.specs.Prelude.{◌↔◌, IsTrue};
ghost use Rattle.page_model.specs.Change.{HasSaturated};
ghost use Rattle.page_model.specs.Red.{IsSaturated};

use page_model::{Rgb, Tint};
use srgb_luma::lin;

/// Whether a colour is a saturated red: its red light is at least four times that of green and blue together, and isn't
/// nothing.
#[inline]
pub fn saturated(c: Rgb) -> bool
    ensures { IsTrue result ↔ IsSaturated c }
{
    let red = lin(c.r);
    let rest = lin(c.g) + lin(c.b);
    red > 0 && red >= 4 * rest
}

/// Whether some corner of a tint is a saturated red: then the one is that has most red and least of the rest.
#[inline]
pub fn has_saturated(tint: Tint) -> bool
    ensures { IsTrue result ↔ HasSaturated tint }
{
    saturated(Rgb {
        r: tint.lo.r.max(tint.hi.r),
        g: tint.lo.g.min(tint.hi.g),
        b: tint.lo.b.min(tint.hi.b),
    })
}
