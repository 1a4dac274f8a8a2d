// Where the parts of a witness lie, and the setup that it is told for.
ghost use Rattle.std.specs.Prelude.{◌↔◌, ◌^◌, ◌<◌, IsTrue, MatchOption, length};
ghost use Rattle.page_model.specs.WitnessConditions.{HasSetup, LiesInside, PartsInside};
ghost use Rattle.witness_checks.specs.Faults.{IsFirstPart, IsPlaced};
ghost use Rattle.witness_checks.specs.Judgement.{AreTested};
ghost use Rattle.witness_checks.specs.Places.{LieWithin};

use crate::fault::WitnessFault;
use crate::overlap::overlap;
use page_model::{Part, Setup, Witness};

/// The width of the rectangle, in pixels.
const WIDTH: u16 = 341;

/// The height of the rectangle, in pixels.
const HEIGHT: u16 = 256;

/// Whether width, height and both parts of the rate are those of the setup.
fn has_setup(setup: &Setup, witness: &Witness) -> bool
    ensures { IsTrue result ↔ HasSetup setup.now witness.now }
{
    let width = setup.width();
    let height = setup.height();
    let num = setup.num();
    let den = setup.den();
    let same_size = witness.width == width && witness.height == height;
    same_size && witness.rate == num && witness.per == den
}

/// Whether there are places from a start on that all lie below a limit, and among so many from a position on.
fn lie_within(start: u16, size: u16, limit: u16, from: i32, span: u16) -> bool
    ensures { IsTrue result ↔ LieWithin start size limit from span }
{
    let low = i64::from(start);
    let high = low + i64::from(size);
    let left = i64::from(from);
    let right = left + i64::from(span);
    if low < left || right < high {
        return false;
    }
    let end = u32::from(start) + u32::from(size);
    0 < size && end <= u32::from(limit)
}

/// Whether a part has pixels, and all of them lie in the viewport and in the rectangle.
fn lies_inside(setup: &Setup, witness: &Witness, part: &Part) -> bool
    ensures { IsTrue result ↔ LiesInside setup.now witness.now part.now }
{
    let width = setup.width();
    let height = setup.height();
    if !lie_within(part.x, part.width, width, witness.x, WIDTH) {
        return false;
    }
    lie_within(part.y, part.height, height, witness.y, HEIGHT)
}

/// The first part that is empty, or doesn't lie wholly inside.
fn part_outside(setup: &Setup, witness: &Witness) -> Option<u32>
    requires { length witness.now.parts < 2 ^ 32 }
    ensures { MatchOption result (PartsInside setup.now witness.now)
        (λ part. IsFirstPart (LiesInside setup.now witness.now) witness.now.parts part) }
{
    for (number, part) in witness.parts.as_slice().iter().enumerate() {
        if !lies_inside(setup, witness, part) {
            return Some(number as u32);
        }
    }
    None
}

/// Tests the first three conditions: the setup, where the parts lie, and that they are apart.
///
/// # Errors
///
/// The first of them that fails: `OtherSetup`, `PartOutside` or `PartsOverlap`.
pub(crate) fn test_place(setup: &Setup, witness: &Witness) -> Result<(), WitnessFault>
    requires { length witness.now.parts < 2 ^ 32 }
    ensures { AreTested IsPlaced setup.now witness.now result }
{
    if !has_setup(setup, witness) {
        return Err(WitnessFault::OtherSetup);
    }
    if let Some(part) = part_outside(setup, witness) {
        return Err(WitnessFault::PartOutside { part });
    }
    if let Some(pair) = overlap(witness.parts.as_slice()) {
        return Err(WitnessFault::PartsOverlap {
            first: pair.first,
            second: pair.second,
        });
    }
    Ok(())
}
