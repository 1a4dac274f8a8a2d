// The files that a command names, opened and read: a page's scene, and a witness.
ghost use Rattle.std.specs.Prelude.{◌≡◌, ◌^◌, ◌<◌, ◌≤◌, IfErr, IfOk, length};
ghost use Rattle.io_edge.specs.Files.{SameNames};
ghost use Rattle.page_model.specs.ValidScene.{IsValid};
ghost use Rattle.flash_top.specs.Files.{HasFile, OrUnread};
ghost use Rattle.flash_top.specs.Refusals.{IsLoadedAs, page_limit};
ghost use Rattle.flash_top.specs.Steps.{IsUnknown, IsUnloaded};
ghost use Rattle.flash_top.specs.Verdicts.{IsWitnessFile, witness_limit};

use crate::loading::refused;
use crate::outcome::Outcome;
use crate::refusal::PageRefusal;
use flash_witness::{TextFault, from_text};
use io_edge::{ReadAllFault, Source, read_all};
use page_loader::load;
use page_model::{Scene, Witness};
use std::alloc::Global;

/// The most bytes of a page.
const PAGE_LIMIT: u32 = 1_048_576;

/// The most bytes of a witness.
const WITNESS_LIMIT: u32 = 67_108_864;

/// The scene of the page in the file of this name, or what comes of it where there is none.
///
/// # Errors
///
/// `ReadFault`, `Refused` or `NoMemory`.
pub(crate) fn open_page<S: Source>(
    alloc: Global,
    name: &str,
    source: &mut S,
) -> Result<Scene, Outcome>
    requires { S.may_open source.old name.now }
    ensures loaded { IfOk result (λ scene. HasFile (S.files source.old) name.now (λ bytes. IsLoadedAs bytes scene)) }
    ensures valid { IfOk result IsValid }
    ensures fault { IfErr result (λ outcome. OrUnread (S.faults source.old) (S.faults source.new) outcome
        (HasFile (S.files source.old) name.now (λ bytes. IsUnloaded bytes outcome))) }
    ensures later { S.faults source.old ≤ S.faults source.new }
    ensures files { S.files source.new ≡ S.files source.old }
    ensures names { SameNames (S.may_open source.old) (S.may_open source.new) }
{
    match read_all(alloc, source, name, PAGE_LIMIT) {
        Ok(bytes) => scene_of(alloc, bytes.as_slice()),
        Err(ReadAllFault::ReadFault) => Err(Outcome::ReadFault),
        Err(ReadAllFault::TooLong) => Err(Outcome::Refused(PageRefusal::TooLong)),
        Err(ReadAllFault::NoMemory) => Err(Outcome::NoMemory),
    }
}

/// The scene of a page's bytes, of which there aren't too many.
#[tactic(auto, using(crate::proofs::RefusalLemmas::is_unloaded))]
pub(crate) fn scene_of(alloc: Global, bytes: &[u8]) -> Result<Scene, Outcome>
    requires { length bytes.now ≤ page_limit }
    ensures loaded { IfOk result (IsLoadedAs bytes.now) }
    ensures valid { IfOk result IsValid }
    ensures refused { IfErr result (IsUnloaded bytes.now) }
{
    match load(alloc, bytes) {
        Ok(scene) => Ok(scene),
        Err(fault) => Err(refused(fault)),
    }
}

/// The witness in the file of this name, or what comes of it where there is none.
///
/// # Errors
///
/// `ReadFault`, `NoWitness` or `NoMemory`.
pub(crate) fn open_witness<S: Source>(
    alloc: Global,
    name: &str,
    source: &mut S,
) -> Result<Witness, Outcome>
    requires { S.may_open source.old name.now }
    ensures read { IfOk result (λ witness. HasFile (S.files source.old) name.now (λ bytes. IsWitnessFile bytes witness)) }
    ensures few { IfOk result (λ witness. length witness.parts < 2 ^ 32) }
    ensures fault { IfErr result (λ outcome. OrUnread (S.faults source.old) (S.faults source.new) outcome
        (HasFile (S.files source.old) name.now (λ bytes. IsUnknown bytes outcome))) }
{
    match read_all(alloc, source, name, WITNESS_LIMIT) {
        Ok(bytes) => witness_of(alloc, bytes.as_slice()),
        Err(ReadAllFault::ReadFault) => Err(Outcome::ReadFault),
        Err(ReadAllFault::TooLong) => Err(Outcome::NoWitness),
        Err(ReadAllFault::NoMemory) => Err(Outcome::NoMemory),
    }
}

/// The witness whose text these bytes are, of which there aren't too many.
fn witness_of(alloc: Global, bytes: &[u8]) -> Result<Witness, Outcome>
    requires { length bytes.now ≤ witness_limit }
    ensures read { IfOk result (IsWitnessFile bytes.now) }
    ensures few { IfOk result (λ witness. length witness.parts < 2 ^ 32) }
    ensures refused { IfErr result (IsUnknown bytes.now) }
{
    match from_text(alloc, bytes) {
        Ok(witness) => Ok(witness),
        Err(TextFault::BadWitness) => Err(Outcome::NoWitness),
        Err(TextFault::NoMemory) => Err(Outcome::NoMemory),
    }
}
