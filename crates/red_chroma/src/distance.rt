// How far two colours may be, and how far they surely are.
ghost use Rattle.std.specs.Prelude.{◌↔◌, ◌≡◌, ◌+◌, ◌*◌, ◌^◌, ◌≤◌, ◌<◌, IsTrue};
ghost use Rattle.page_model.specs.Change.{AreFarBy, greatest_gap, least_gap};
ghost use Rattle.page_model.specs.Red.{chromaticity_of, squared};
ghost use Rattle.red_chroma.specs.Enclosing.{IsCoordinate, ends_of};

use crate::coordinates::chroma;
use fix_span::Span;
use page_model::Rgb;

/// Whether the greatest distance of two colours is more than 0.2.
pub(crate) fn far_possible(a: Rgb, b: Rgb) -> bool
    ensures { IsTrue result ↔ AreFarBy greatest_gap (chromaticity_of a) (chromaticity_of b) }
{
    let first = chroma(a);
    let second = chroma(b);
    is_far(
        greatest_size(first.u, second.u),
        greatest_size(first.v, second.v),
    )
}

/// Whether the least distance of two colours is more than 0.2.
pub(crate) fn far_sure(a: Rgb, b: Rgb) -> bool
    ensures { IsTrue result ↔ AreFarBy least_gap (chromaticity_of a) (chromaticity_of b) }
{
    let first = chroma(a);
    let second = chroma(b);
    is_far(least_size(first.u, second.u), least_size(first.v, second.v))
}

/// Whether two colours may be more than 0.2 apart, and whether they surely are.
#[derive(Clone, Copy)]
pub(crate) struct Farness {
    pub(crate) possible: bool,
    pub(crate) sure: bool,
}

/// Both by one look at the coordinates.
pub(crate) fn how_far(a: Rgb, b: Rgb) -> Farness
    ensures possible { IsTrue result.possible ↔ AreFarBy greatest_gap (chromaticity_of a) (chromaticity_of b) }
    ensures sure { IsTrue result.sure ↔ AreFarBy least_gap (chromaticity_of a) (chromaticity_of b) }
{
    let first = chroma(a);
    let second = chroma(b);
    Farness {
        possible: is_far(
            greatest_size(first.u, second.u),
            greatest_size(first.v, second.v),
        ),
        sure: is_far(least_size(first.u, second.u), least_size(first.v, second.v)),
    }
}

/// Whether a point that lies so many parts of 2^40 along each axis is more than 0.2 away.
fn is_far(u: u64, v: u64) -> bool
    requires first { u ≤ 2 ^ 42 }
    requires second { v ≤ 2 ^ 42 }
    ensures { IsTrue result ↔ 2 ^ 80 < 25 * (squared u + squared v) }
{
    let u = u as u128;
    let v = v as u128;
    25 * (u * u + v * v) > 1 << 80
}

/// The greatest absolute value of a difference of two coordinates, in parts of 2^40.
fn greatest_size(x: Span<40>, y: Span<40>) -> u64
    requires first { IsCoordinate x }
    requires second { IsCoordinate y }
    ensures value { result ≡ greatest_gap (ends_of x) (ends_of y) }
    ensures at_most { result ≤ 2 ^ 42 }
{
    let way = x - y;
    way.lo.unsigned_abs().max(way.hi.unsigned_abs())
}

/// The least absolute value of a difference of two coordinates, in parts of 2^40.
fn least_size(x: Span<40>, y: Span<40>) -> u64
    requires first { IsCoordinate x }
    requires second { IsCoordinate y }
    ensures value { result ≡ least_gap (ends_of x) (ends_of y) }
    ensures at_most { result ≤ 2 ^ 42 }
{
    let way = x - y;
    if way.lo > 0 {
        way.lo.unsigned_abs()
    } else if way.hi < 0 {
        way.hi.unsigned_abs()
    } else {
        0
    }
}
