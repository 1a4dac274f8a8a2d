// From the text of a witness to the witness.
ghost use Rattle.std.specs.Prelude.{◌≡◌, ◌≤◌, ◌↔◌, length, Some, None, IsTrue, IfOk, IfErr, IsUtf8};
ghost use Rattle.serde_json.specs.Data.{depth};
ghost use Rattle.serde_json.specs.Read.{read, max_depth};
ghost use Rattle.serde_json.specs.View.{view};
ghost use Rattle.page_model.specs.declared.witness.Witness.{Witness as SpecWitness};
ghost use Rattle.witness_text.specs.WitnessForm.{IsTextOf, IsToldRate};
ghost use Rattle.witness_text.specs.WitnessText.{witness_value};

use crate::fault::TextFault;
use crate::look::witness_of;
use crate::text::to_text;
use page_model::{NoMemory, Witness};
use serde_json::Value;
use std::alloc::Global;

/// The witness whose text the bytes are: a JSON text, by `serde_json`'s reading of a whole value,
/// that is the object of a witness in form. White space may stand wherever JSON lets it, as a
/// newline at the end. The errors are `BadWitness`, exactly where the bytes are the text of no
/// witness, and want of memory.
#[tactic(auto, using(crate::proofs::ReadLemmas::reads_found, crate::proofs::ReadLemmas::refuses_none))]
pub fn from_text(alloc: Global, bytes: &[u8]) -> Result<Witness, TextFault>
    ensures read { IfOk result (λ w. IsTextOf bytes.now w) }
    ensures refused { IfErr result (λ e. e ≡ TextFault.BadWitness
        → (w : SpecWitness) → IsTextOf bytes.now w → ⊥) }
    ensures few { IfOk result (λ w. length w.parts ≤ length bytes.now) }
{
    let value = value_of(alloc, bytes)?;
    let witness = witness_of(alloc, &value)?;
    if is_object_of(alloc, &value, &witness)? {
        return Ok(witness);
    }
    Err(TextFault::BadWitness)
}

/// The value that a text is.
fn value_of(alloc: Global, bytes: &[u8]) -> Result<Value, TextFault>
    ensures ok { IfOk result (λ v. IsUtf8 bytes.now × (read bytes.now ≡ Some (view v))) }
    ensures nests { IfOk result (λ v. depth (view v) ≤ max_depth) }
    ensures refused { IfErr result (λ e. e ≡ TextFault.BadWitness
        → IsUtf8 bytes.now → read bytes.now ≡ None) }
{
    match Value::from_slice(alloc, bytes) {
        Ok(value) => Ok(value),
        Err(error) => {
            if error.is_memory() {
                return Err(TextFault::NoMemory);
            }
            Err(TextFault::BadWitness)
        }
    }
}

/// Whether a value is the object of a witness: both have one text.
#[tactic(auto, using(crate::proofs::ReadLemmas::one_text))]
fn is_object_of(alloc: Global, value: &Value, witness: &Witness) -> Result<bool, NoMemory>
    requires nests { depth (view value.now) ≤ max_depth }
    requires told { IsToldRate witness.now.rate witness.now.per }
    ensures same { IfOk result (λ b. IsTrue b → view value.now ≡ witness_value witness.now) }
    ensures other { IfOk result (λ b. view value.now ≡ witness_value witness.now → IsTrue b) }
{
    let wanted = to_text(alloc, witness)?;
    let text = value.to_vec(alloc)?;
    if wanted.as_slice() == text.as_slice() {
        return Ok(true);
    }
    Ok(false)
}
