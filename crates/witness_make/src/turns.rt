// The tints of a cell in a window, and the nine turns that a part tells of them.
ghost use Rattle.std.specs.Prelude.{◌≡◌, ◌+◌, ◌*◌, ◌^◌, ◌<◌, ◌≤◌, length, All};
ghost use Rattle.wide_laws.specs.PaintLaws.{IsPixel};
ghost use Rattle.witness_make.specs.Turns.{ArePicked, AreOfBytes, TellsTrace};

use flash_count::Trace;
use page_model::{Part, Rgb, Tint};
use region_split::Rect;

const WHITE: Rgb = Rgb {
    r: 255,
    g: 255,
    b: 255,
};

/// What stands where no tint is written yet.
pub(crate) const NO_TINT: Tint = Tint {
    lo: WHITE,
    hi: WHITE,
};

/// How many turns a part tells.
const TURNS: usize = 9;

/// Writes the tints of a cell, of those of all cells: frame by frame, and of each frame cell by cell.
pub(crate) fn see(all: &[Tint], cells: u32, number: u32, tints: &mut [Tint])
    requires known { number < cells }
    requires all { length all.now ≡ cells * length tints.old }
    ensures whole { length tints.new ≡ length tints.old }
    ensures picked { ArePicked all.now cells number tints.new }
{
    for k in 0..tints.len() {
        tints[k] = all[k * cells as usize + number as usize];
    }
}

/// A tint as it is: its channels are bytes.
fn kept(tint: Tint) -> Tint
    ensures same { result ≡ tint }
    ensures bytes { IsPixel result.hi }
{
    tint
}

/// The part of a rectangle whose pixels have these tints, with the frames and tints of a trace.
pub(crate) fn told(rect: Rect, start: u32, trace: Trace, tints: &[Tint]) -> Part
    requires frames { start + length tints.now ≤ 2 ^ 32 }
    requires places { All (λ place. place < length tints.now) trace.places }
    ensures x { result.x ≡ rect.x }
    ensures y { result.y ≡ rect.y }
    ensures width { result.width ≡ rect.width }
    ensures height { result.height ≡ rect.height }
    ensures tells { TellsTrace start tints.now trace result }
    ensures bytes { AreOfBytes result.tints }
{
    let mut frames = [0; TURNS];
    let mut told = [NO_TINT; TURNS];
    for turn in 0..TURNS {
        let place = trace.places[turn];
        frames[turn] = start + u32::from(place);
        told[turn] = kept(tints[place as usize]);
    }
    Part {
        x: rect.x,
        y: rect.y,
        width: rect.width,
        height: rect.height,
        kind: trace.kind,
        frames,
        tints: told,
    }
}
