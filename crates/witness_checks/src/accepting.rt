// Whether a witness is accepted.
ghost use Rattle.std.specs.Prelude.{◌≡◌, ◌^◌, ◌<◌, length, Ok, OnOk};
ghost use Rattle.page_model.specs.Colour.{IsBadWindow};
ghost use Rattle.page_model.specs.ValidScene.{IsValid};
ghost use Rattle.witness_laws.specs.Acceptance.{IsAccepted};
ghost use Rattle.witness_checks.specs.Faults.{IsTimed};
ghost use Rattle.witness_checks.specs.Judgement.{IsTested};

use crate::area::test_area;
use crate::change::first_stop;
use crate::fault::WitnessFault;
use crate::frames::test_frames;
use crate::place::test_place;
use crate::tints::wrong_tint;
use page_model::{Scene, Setup, Witness};

/// Tests the last two conditions: that the pixels of the parts have the stated tints, and that these change surely and in turn.
///
/// # Errors
///
/// The first of them that fails: `WrongTint` or `NotChange`.
fn test_tints(scene: &Scene, setup: &Setup, witness: &Witness) -> Result<(), WitnessFault>
    requires valid { IsValid scene.now }
    requires few { length witness.now.parts < 2 ^ 32 }
    requires timed { IsTimed setup.now witness.now }
    ensures { IsTested scene.now setup.now witness.now result }
{
    if let Some(wrong) = wrong_tint(scene, setup, witness) {
        return Err(WitnessFault::WrongTint {
            part: wrong.part,
            turn: wrong.turn,
            x: wrong.x,
            y: wrong.y,
        });
    }
    if let Some(stop) = first_stop(witness) {
        return Err(WitnessFault::NotChange {
            part: stop.part,
            turn: stop.turn,
        });
    }
    Ok(())
}

/// Whether a witness is accepted: all nine conditions hold, and so its window is bad at the stated position. It takes no memory.
///
/// # Errors
///
/// The first condition that fails, at the first place where it does.
pub fn accepts(scene: &Scene, setup: &Setup, witness: &Witness) -> Result<(), WitnessFault>
    requires valid { IsValid scene.now }
    requires few { length witness.now.parts < 2 ^ 32 }
    ensures tested { IsTested scene.now setup.now witness.now result }
    ensures bad { OnOk result (IsBadWindow scene.now setup.now witness.now.start witness.now.x witness.now.y) }
    ensures exactly { IsAccepted scene.now setup.now witness.now → result ≡ Ok tt }
{
    test_place(setup, witness)?;
    test_area(setup, witness)?;
    test_frames(setup, witness)?;
    test_tints(scene, setup, witness)
}
