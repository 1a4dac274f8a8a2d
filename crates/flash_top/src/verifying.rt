// What a page and a witness come to by `verify`: the page is opened, and then the witness is opened and tested.
ghost use Rattle.std.specs.Prelude.{ℕ, ◌≡◌, ◌^◌, ◌<◌, List, length};
ghost use Rattle.page_model.specs.ValidScene.{IsValid};
ghost use Rattle.flash_top.specs.Files.{HasFile, OrUnread};
ghost use Rattle.flash_top.specs.Refusals.{IsLoadedAs};
ghost use Rattle.flash_top.specs.Verdicts.{IsVerified, IsWitnessFile};

use crate::opening::{open_page, open_witness};
use crate::outcome::Outcome;
use flash_witness::accepts;
use io_edge::Source;
use page_model::{Scene, Setup, Witness};
use std::alloc::Global;

/// What the page and the witness in the files of these names come to.
pub(crate) fn verify<S: Source>(
    alloc: Global,
    page: &str,
    witness: &str,
    setup: Setup,
    source: &mut S,
) -> Outcome
    requires page { S.may_open source.old page.now }
    requires witness { S.may_open source.old witness.now }
    ensures { OrUnread (S.faults source.old) (S.faults source.new) result
        (HasFile (S.files source.old) page.now (λ bytes. HasFile (S.files source.old) witness.now (λ text. IsVerified setup bytes text result))) }
{
    match open_page(alloc, page, source) {
        Ok(scene) => verify_on(alloc, &scene, witness, setup, source),
        Err(outcome) => outcome,
    }
}

/// What the bytes of a page come to whose scene this is, with the witness in the file of this name.
fn verify_on<S: Source>(
    alloc: Global,
    scene: &Scene,
    witness: &str,
    setup: Setup,
    source: &mut S,
) -> Outcome
    requires valid { IsValid scene.now }
    requires witness { S.may_open source.old witness.now }
    ensures { (bytes : List ℕ) → IsLoadedAs bytes scene.now → OrUnread (S.faults source.old) (S.faults source.new) result
        (HasFile (S.files source.old) witness.now (λ text. IsVerified setup bytes text result)) }
{
    match open_witness(alloc, witness, source) {
        Ok(witness) => test(scene, setup, &witness),
        Err(outcome) => outcome,
    }
}

/// What the bytes of a page come to whose scene this is, with those of a file that tells this witness.
fn test(scene: &Scene, setup: Setup, witness: &Witness) -> Outcome
    requires valid { IsValid scene.now }
    requires few { length witness.now.parts < 2 ^ 32 }
    ensures { (bytes text : List ℕ) → IsLoadedAs bytes scene.now → IsWitnessFile text witness.now → IsVerified setup bytes text result }
{
    match accepts(scene, &setup, witness) {
        Ok(()) => Outcome::Accepted {
            start: witness.start,
            area: witness.area,
        },
        Err(fault) => Outcome::Unaccepted(fault),
    }
}
