// Relative luminance of a colour.
ghost use Rattle.std.specs.Prelude.{◌≡◌, ◌*◌, ◌^◌, ◌≤◌};
ghost use Rattle.page_model.specs.Light.{luma_of};

use crate::linear::lin;
use page_model::Rgb;

/// The relative luminance of a colour, in parts of 10000 * 2^32: black has 0, and white has all.
/// The weights of the channels are those of WCAG 2.2.
#[inline]
pub fn luma(c: Rgb) -> u64
    ensures value { result ≡ luma_of c }
    ensures at_most { result ≤ 10000 * 2 ^ 32 }
{
    2126 * lin(c.r) + 7152 * lin(c.g) + 722 * lin(c.b)
}
