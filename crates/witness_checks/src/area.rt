// How many pixels the parts of a witness have.
ghost use Rattle.std.specs.Prelude.{◌≡◌, ◌*◌, ◌^◌, ◌<◌, length, sum_by};
ghost use Rattle.page_model.specs.declared.witness.Part.{Part};
ghost use Rattle.witness_checks.specs.Faults.{IsMeasured, IsPlaced};
ghost use Rattle.witness_checks.specs.Judgement.{AreTested};

use crate::fault::WitnessFault;
use page_model::{Part, Setup, Witness};

/// A quarter of the rectangle, in pixels.
const QUARTER: u32 = 21_824;

/// How many pixels parts have in all.
fn area_of(parts: &[Part]) -> u64
    requires { length parts.now < 2 ^ 32 }
    ensures { result ≡ sum_by (λ (part : Part). part.width * part.height) parts.now }
{
    let mut area = 0;
    for part in parts {
        area += u64::from(part.width) * u64::from(part.height);
    }
    area
}

/// Tests the next two conditions: that the stated area is that of the parts, and more than a quarter of the rectangle.
///
/// # Errors
///
/// The first of them that fails: `WrongArea` or `SmallArea`.
pub(crate) fn test_area(setup: &Setup, witness: &Witness) -> Result<(), WitnessFault>
    requires few { length witness.now.parts < 2 ^ 32 }
    requires placed { IsPlaced setup.now witness.now }
    ensures { AreTested IsMeasured setup.now witness.now result }
{
    let found = area_of(witness.parts.as_slice()) as u32;
    if witness.area != found {
        return Err(WitnessFault::WrongArea {
            stated: witness.area,
            found,
        });
    }
    if witness.area <= QUARTER {
        return Err(WitnessFault::SmallArea { area: witness.area });
    }
    Ok(())
}
