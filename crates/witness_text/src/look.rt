// What is found of a witness in a JSON value by looking at fixed places. Nothing is refused here:
// whether the value is the object of what was found, is told by comparing texts.
ghost use Rattle.std.specs.Prelude.{◌≡◌, ◌<◌, map, option_map, IfOk};
ghost use Rattle.serde_json.specs.View.{view};
ghost use Rattle.witness_text.specs.Look.{natural_in, integer_in, short_in, word_in, signed_in, per_in, rate_in, text_in, kind_in, list_in, item_in, nine_of, tint_in, part_in, witness_in};
ghost use Rattle.witness_text.specs.WitnessForm.{IsToldRate};

use crate::digits::tint_of_text;
use page_model::{Kind, List, NoMemory, Part, Tint, Witness};
use serde_json::Value;
use std::alloc::Global;

/// The seconds of a rate that isn't whole.
const PER: u32 = 1001;

/// The witness that is found in an object.
#[tactic(auto, unfolding(crate::specs::Look::witness_in))]
pub fn witness_of(alloc: Global, value: &Value) -> Result<Witness, NoMemory>
    ensures value { IfOk result (λ w. w ≡ witness_in (view value.now)) }
    ensures told { IfOk result (λ w. IsToldRate w.rate w.per) }
{
    let parts = parts_of(alloc, items_of(value.get("parts")))?;
    let per = per_of(value.get("per"));
    Ok(Witness {
        width: short_of(value.get("width")),
        height: short_of(value.get("height")),
        rate: rate_of(per, value.get("rate")),
        per,
        start: word_of(value.get("start")),
        x: signed_of(value.get("x")),
        y: signed_of(value.get("y")),
        area: word_of(value.get("area")),
        parts,
    })
}

/// The parts that are found in an array's items.
fn parts_of(alloc: Global, items: &[Value]) -> Result<List<Part>, NoMemory>
    ensures { IfOk result (λ parts. parts ≡ map part_in (map view items.now)) }
{
    let mut parts = List::new(alloc);
    for item in items {
        parts.push(part_of(item))?;
    }
    Ok(parts)
}

/// The part that is found in an object.
#[tactic(auto, unfolding(crate::specs::Look::part_in))]
fn part_of(value: &Value) -> Part
    ensures { result ≡ part_in (view value.now) }
{
    Part {
        x: short_of(value.get("x")),
        y: short_of(value.get("y")),
        width: short_of(value.get("width")),
        height: short_of(value.get("height")),
        kind: kind_of(value.get("kind")),
        frames: frames_of(value.get("frames")),
        tints: tints_of(value.get("tints")),
    }
}

/// The first nine numbers of an array.
fn frames_of(value: Option<&Value>) -> [u32; 9]
    ensures { result ≡ nine_of word_in (option_map (λ v. view v.now) value.entry) }
{
    [
        word_of(item_of(value, 0)),
        word_of(item_of(value, 1)),
        word_of(item_of(value, 2)),
        word_of(item_of(value, 3)),
        word_of(item_of(value, 4)),
        word_of(item_of(value, 5)),
        word_of(item_of(value, 6)),
        word_of(item_of(value, 7)),
        word_of(item_of(value, 8)),
    ]
}

/// The first nine tints of an array.
fn tints_of(value: Option<&Value>) -> [Tint; 9]
    ensures { result ≡ nine_of tint_in (option_map (λ v. view v.now) value.entry) }
{
    [
        tint_of(item_of(value, 0)),
        tint_of(item_of(value, 1)),
        tint_of(item_of(value, 2)),
        tint_of(item_of(value, 3)),
        tint_of(item_of(value, 4)),
        tint_of(item_of(value, 5)),
        tint_of(item_of(value, 6)),
        tint_of(item_of(value, 7)),
        tint_of(item_of(value, 8)),
    ]
}

/// The items of an array.
#[tactic(auto, using(crate::proofs::LookLemmas::list_of_items), unfolding(crate::specs::Look::list_in))]
fn items_of(value: Option<&Value>) -> &[Value]
    ensures { map view result.now ≡ list_in (option_map (λ v. view v.now) value.entry) }
{
    match value.and_then(Value::as_array) {
        Some(items) => items.as_slice(),
        None => &[],
    }
}

/// An item of an array.
fn item_of(value: Option<&Value>, i: usize) -> Option<&Value>
    ensures { option_map (λ v. view v.now) result ≡ item_in (option_map (λ v. view v.now) value.entry) i }
{
    match value {
        Some(array) => array.get(i),
        None => None,
    }
}

/// The kind that is told by a string.
#[tactic(auto, unfolding(crate::specs::Look::kind_in))]
fn kind_of(value: Option<&Value>) -> Kind
    ensures { result ≡ kind_in (option_map (λ v. view v.now) value.entry) }
{
    if text_of(value).len() == 3 {
        return Kind::Red;
    }
    Kind::General
}

/// The tint that is spelled by a string.
#[tactic(auto, unfolding(crate::specs::Look::tint_in))]
fn tint_of(value: Option<&Value>) -> Tint
    ensures { result ≡ tint_in (option_map (λ v. view v.now) value.entry) }
{
    tint_of_text(text_of(value))
}

/// The bytes of a string.
#[tactic(auto, unfolding(crate::specs::Look::text_in))]
fn text_of(value: Option<&Value>) -> &[u8]
    ensures { result.now ≡ text_in (option_map (λ v. view v.now) value.entry) }
{
    match value.and_then(Value::as_str) {
        Some(text) => text.as_bytes(),
        None => &[],
    }
}

/// A number of 16 bits.
#[tactic(auto, unfolding(crate::specs::Look::short_in))]
fn short_of(value: Option<&Value>) -> u16
    ensures { result ≡ short_in (option_map (λ v. view v.now) value.entry) }
{
    let n = natural_of(value);
    if n < 65_536 { n as u16 } else { 0 }
}

/// A number of 32 bits.
#[tactic(auto, unfolding(crate::specs::Look::word_in))]
fn word_of(value: Option<&Value>) -> u32
    ensures { result ≡ word_in (option_map (λ v. view v.now) value.entry) }
{
    let n = natural_of(value);
    if n < 4_294_967_296 { n as u32 } else { 0 }
}

/// The seconds of a rate: 1,001 where they are told, else 1.
#[tactic(auto, unfolding(crate::specs::Look::per_in))]
fn per_of(value: Option<&Value>) -> u32
    ensures { result ≡ per_in (option_map (λ v. view v.now) value.entry) }
{
    if natural_of(value) == u64::from(PER) {
        PER
    } else {
        1
    }
}

/// The frames in so many seconds.
#[tactic(auto, unfolding(crate::specs::Look::rate_in))]
fn rate_of(per: u32, value: Option<&Value>) -> u32
    ensures { result ≡ rate_in per (option_map (λ v. view v.now) value.entry) }
{
    if per == 1 {
        u32::from(short_of(value))
    } else {
        word_of(value)
    }
}

/// A number of 32 bits and either sign.
#[tactic(auto, unfolding(crate::specs::Look::signed_in))]
fn signed_of(value: Option<&Value>) -> i32
    ensures { result ≡ signed_in (option_map (λ v. view v.now) value.entry) }
{
    let z = integer_of(value);
    if -2_147_483_648 <= z && z <= 2_147_483_647 {
        z as i32
    } else {
        0
    }
}

/// A whole number that isn't negative.
#[tactic(auto, unfolding(crate::specs::Look::natural_in))]
fn natural_of(value: Option<&Value>) -> u64
    ensures { result ≡ natural_in (option_map (λ v. view v.now) value.entry) }
{
    match value {
        Some(number) => number.as_u64().unwrap_or(0),
        None => 0,
    }
}

/// A whole number of either sign.
#[tactic(auto, unfolding(crate::specs::Look::integer_in))]
fn integer_of(value: Option<&Value>) -> i64
    ensures { result ≡ integer_in (option_map (λ v. view v.now) value.entry) }
{
    match value {
        Some(number) => number.as_i64().unwrap_or(0),
        None => 0,
    }
}
