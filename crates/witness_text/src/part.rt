// The JSON value of a part.
ghost use Rattle.std.specs.Prelude.{◌≡◌, map, IfOk};
ghost use Rattle.serde_json.specs.Data.{array};
ghost use Rattle.serde_json.specs.View.{view, items_of};
ghost use Rattle.witness_text.specs.PartValue.{natural, tint_value, kind_text, part_value};

use crate::tint::spelling;
use page_model::{Kind, Part, Tint};
use serde_json::{Value, json};
use std::alloc::{AllocError, Global};

/// The object of a part.
#[tactic(auto, unfolding(crate::specs::PartValue::part_value))]
pub fn part_object(alloc: Global, part: &Part) -> Result<Value, AllocError>
    ensures { IfOk result (λ v. view v ≡ part_value part.now) }
{
    let frames = frame_array(alloc, &part.frames)?;
    let tints = tint_array(alloc, &part.tints)?;
    json!(in alloc; {
        "frames": frames,
        "height": part.height,
        "kind": kind_word(part.kind),
        "tints": tints,
        "width": part.width,
        "x": part.x,
        "y": part.y
    })
}

/// The word of a kind.
fn kind_word(kind: Kind) -> &'static str
    ensures { result.now ≡ kind_text kind }
{
    match kind {
        Kind::General => "general",
        Kind::Red => "red",
    }
}

/// The array of the frames, as numbers.
fn frame_array(alloc: Global, frames: &[u32]) -> Result<Value, AllocError>
    ensures { IfOk result (λ v. view v ≡ array (items_of (map natural frames.now))) }
{
    let mut items = Vec::new(alloc);
    for frame in frames {
        items.push(Value::from(*frame))?;
    }
    Ok(Value::Array(items))
}

/// The array of the tints, as strings.
fn tint_array(alloc: Global, tints: &[Tint]) -> Result<Value, AllocError>
    ensures { IfOk result (λ v. view v ≡ array (items_of (map tint_value tints.now))) }
{
    let mut items = Vec::new(alloc);
    for tint in tints {
        items.push(Value::String(spelling(alloc, tint)?))?;
    }
    Ok(Value::Array(items))
}
