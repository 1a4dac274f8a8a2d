// The text of a witness, by way of its JSON value.
ghost use Rattle.std.specs.Prelude.{◌≡◌, map, Some, IfOk, IsUtf8};
ghost use Rattle.serde_json.specs.Data.{array};
ghost use Rattle.serde_json.specs.Read.{read};
ghost use Rattle.serde_json.specs.View.{view, items_of};
ghost use Rattle.witness_text.specs.PartValue.{part_value};
ghost use Rattle.witness_text.specs.WitnessForm.{IsToldRate};
ghost use Rattle.witness_text.specs.WitnessText.{value_of_first, value_of_second, witness_value, witness_text};

use crate::part::part_object;
use page_model::{NoMemory, Part, Witness};
use serde_json::{Value, json};
use std::alloc::{AllocError, Global};

/// The versions of the format, of which each text tells one: for a whole rate, and for one over 1,001.
const FIRST: u64 = 1;

const SECOND: u64 = 2;

/// The text of a witness: one JSON object with no white space, and no newline at its end. The rate is
/// whole and of 16 bits, or over 1,001. The one error is want of memory.
#[tactic(auto, using(crate::proofs::Shape::witness_whole, crate::proofs::Shape::witness_within), unfolding(crate::specs::WitnessText::witness_text))]
pub fn to_text(alloc: Global, witness: &Witness) -> Result<Vec<u8>, NoMemory>
    requires { IsToldRate witness.now.rate witness.now.per }
    ensures text { IfOk result (λ text. text.items ≡ witness_text witness.now) }
    ensures reads_back { IfOk result
        (λ text. read text.items ≡ Some (witness_value witness.now)) }
    ensures utf8 { IfOk result (λ text. IsUtf8 text.items) }
{
    let value = witness_object(alloc, witness)?;
    Ok(value.to_vec(alloc)?)
}

/// The object of a witness.
#[tactic(auto, unfolding(crate::specs::WitnessText::witness_value))]
fn witness_object(alloc: Global, witness: &Witness) -> Result<Value, AllocError>
    ensures { IfOk result (λ v. view v ≡ witness_value witness.now) }
{
    let parts = part_array(alloc, witness.parts.as_slice())?;
    if witness.per == 1 {
        first_object(alloc, witness, parts)
    } else {
        second_object(alloc, witness, parts)
    }
}

/// The object of the first version.
#[tactic(auto, unfolding(crate::specs::WitnessText::value_of_first))]
fn first_object(alloc: Global, witness: &Witness, parts: Value) -> Result<Value, AllocError>
    requires { view parts ≡ array (items_of (map part_value witness.now.parts)) }
    ensures { IfOk result (λ v. view v ≡ value_of_first witness.now) }
{
    json!(in alloc; {
        "area": witness.area,
        "height": witness.height,
        "parts": parts,
        "rate": witness.rate,
        "start": witness.start,
        "verdict": "fail",
        "version": FIRST,
        "width": witness.width,
        "x": witness.x,
        "y": witness.y
    })
}

/// The object of the second version.
#[tactic(auto, unfolding(crate::specs::WitnessText::value_of_second))]
fn second_object(alloc: Global, witness: &Witness, parts: Value) -> Result<Value, AllocError>
    requires { view parts ≡ array (items_of (map part_value witness.now.parts)) }
    ensures { IfOk result (λ v. view v ≡ value_of_second witness.now) }
{
    json!(in alloc; {
        "area": witness.area,
        "height": witness.height,
        "parts": parts,
        "per": witness.per,
        "rate": witness.rate,
        "start": witness.start,
        "verdict": "fail",
        "version": SECOND,
        "width": witness.width,
        "x": witness.x,
        "y": witness.y
    })
}

/// The array of the parts.
fn part_array(alloc: Global, parts: &[Part]) -> Result<Value, AllocError>
    ensures { IfOk result (λ v. view v ≡ array (items_of (map part_value parts.now))) }
{
    let mut items = Vec::new(alloc);
    for part in parts {
        items.push(part_object(alloc, part)?)?;
    }
    Ok(Value::Array(items))
}
