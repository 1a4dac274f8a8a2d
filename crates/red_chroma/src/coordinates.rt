// Coordinates of a colour in the CIE 1976 UCS diagram, enclosed.
ghost use Rattle.std.specs.Prelude.{◌≡◌, ◌*◌, ◌≤◌, ◌<◌, ◌^◌};
ghost use Rattle.page_model.specs.Change.{enclosed};
ghost use Rattle.page_model.specs.Red.{chromaticity_of, cie_x as x_of, cie_z as z_of};
ghost use Rattle.fix_span.specs.Span.{Holds};
ghost use Rattle.red_chroma.specs.Enclosing.{AreCoordinates, HoldsCoordinates, IsCoordinate, chroma_of, share, shown, span_of};

use crate::types::Chroma;
use fix_span::{Frac, Span};
use page_model::Rgb;
use srgb_luma::{lin, luma};

// Black has no light, and takes the coordinates of white.
const WHITE: Rgb = Rgb {
    r: 255,
    g: 255,
    b: 255,
};

/// The coordinates u' and v' of a colour, each by its floor and its ceiling in parts of 2^40. Black has those of white.
pub fn chroma(c: Rgb) -> Chroma
    ensures ends { result ≡ chroma_of c }
    ensures holds { HoldsCoordinates result (chromaticity_of c) }
    ensures range { AreCoordinates result }
{
    let point = point_of(c);
    Chroma {
        u: coordinate(point.u, point.over),
        v: coordinate(point.v, point.over),
    }
}

/// The exact coordinates of a colour: two numerators over one denominator.
#[derive(Clone, Copy)]
struct Point {
    u: u64,
    v: u64,
    over: u64,
}

/// The exact coordinates, u' = 4 X / (X + 15 Y + 3 Z) and v' = 9 Y / (X + 15 Y + 3 Z).
fn point_of(c: Rgb) -> Point
    ensures u { result.u ≡ (chromaticity_of c).u }
    ensures v { result.v ≡ (chromaticity_of c).v }
    ensures over { result.over ≡ (chromaticity_of c).over }
    ensures some { 0 < result.over }
    ensures u_most { result.u ≤ 4 * result.over }
    ensures v_most { result.v ≤ result.over }
{
    let from = shown_of(c);
    let x = cie_x(from);
    let y = luma(from);
    Point {
        u: 4 * x,
        v: 9 * y,
        over: x + 15 * y + 3 * cie_z(from),
    }
}

/// The colour whose coordinates are taken: white for black.
fn shown_of(c: Rgb) -> Rgb
    ensures { result ≡ shown c }
{
    if c.r == 0 && c.g == 0 && c.b == 0 {
        WHITE
    } else {
        c
    }
}

/// X of the CIE 1931 values, ten thousand times as large as in parts of 2^32.
fn cie_x(c: Rgb) -> u64
    ensures value { result ≡ x_of c }
    ensures at_most { result ≤ 9505 * 2 ^ 32 }
{
    4124 * lin(c.r) + 3576 * lin(c.g) + 1805 * lin(c.b)
}

/// Z.
fn cie_z(c: Rgb) -> u64
    ensures value { result ≡ z_of c }
    ensures at_most { result ≤ 10890 * 2 ^ 32 }
{
    193 * lin(c.r) + 1192 * lin(c.g) + 9505 * lin(c.b)
}

/// A coordinate: the floor and the ceiling of a fraction in parts of 2^40.
fn coordinate(num: u64, over: u64) -> Span<40>
    requires some { 0 < over }
    requires at_most { num ≤ 4 * over }
    ensures ends { result ≡ span_of (enclosed num over) }
    ensures holds { Holds 40 result (share num over) }
    ensures range { IsCoordinate result }
{
    Span::of_frac(Frac {
        num: num as i128,
        den: over as i128,
    })
}
