// When the parts of a witness flash: their frames rise, and lie in the window.
ghost use Rattle.std.specs.Prelude.{◌↔◌, ◌^◌, ◌<◌, IsTrue, MatchOption, length};
ghost use Rattle.page_model.specs.WitnessConditions.{FramesRise, FramesWithin};
ghost use Rattle.witness_checks.specs.Faults.{IsFirstPart, IsMeasured, IsTimed, LiesInWindow, Rises};
ghost use Rattle.witness_checks.specs.Judgement.{AreTested};

use crate::fault::WitnessFault;
use page_model::{Part, Setup, Witness};

/// How many turns a part tells.
const TURNS: usize = 9;

/// Whether the nine frames of a part rise strictly.
fn rises(part: &Part) -> bool
    ensures { IsTrue result ↔ Rises part.now }
{
    for turn in 1..TURNS {
        if part.frames[turn] <= part.frames[turn - 1] {
            return false;
        }
    }
    true
}

/// Whether the nine frames of a part lie in the window.
fn lies_in_window(setup: &Setup, witness: &Witness, part: &Part) -> bool
    ensures { IsTrue result ↔ LiesInWindow setup.now witness.now part.now }
{
    let window = setup.rate();
    let last = u64::from(witness.start) + u64::from(window);
    for turn in 0..TURNS {
        if part.frames[turn] < witness.start || last < u64::from(part.frames[turn]) {
            return false;
        }
    }
    true
}

/// The first part whose frames don't rise strictly.
fn part_out_of_order(witness: &Witness) -> Option<u32>
    requires { length witness.now.parts < 2 ^ 32 }
    ensures { MatchOption result (FramesRise witness.now) (λ part. IsFirstPart Rises witness.now.parts part) }
{
    for (number, part) in witness.parts.as_slice().iter().enumerate() {
        if !rises(part) {
            return Some(number as u32);
        }
    }
    None
}

/// The first part with a frame outside the window.
fn part_out_of_window(setup: &Setup, witness: &Witness) -> Option<u32>
    requires { length witness.now.parts < 2 ^ 32 }
    ensures { MatchOption result (FramesWithin setup.now witness.now)
        (λ part. IsFirstPart (LiesInWindow setup.now witness.now) witness.now.parts part) }
{
    for (number, part) in witness.parts.as_slice().iter().enumerate() {
        if !lies_in_window(setup, witness, part) {
            return Some(number as u32);
        }
    }
    None
}

/// Tests the next two conditions: that the frames of each part rise strictly, and that they lie in the window.
///
/// # Errors
///
/// The first of them that fails: `FramesOrder` or `FramesOutside`.
pub(crate) fn test_frames(setup: &Setup, witness: &Witness) -> Result<(), WitnessFault>
    requires few { length witness.now.parts < 2 ^ 32 }
    requires measured { IsMeasured setup.now witness.now }
    ensures { AreTested IsTimed setup.now witness.now result }
{
    if let Some(part) = part_out_of_order(witness) {
        return Err(WitnessFault::FramesOrder { part });
    }
    if let Some(part) = part_out_of_window(setup, witness) {
        return Err(WitnessFault::FramesOutside { part });
    }
    Ok(())
}
