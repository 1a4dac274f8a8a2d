// The whole values of slots, rounded half up and held in their ranges.
ghost use Rattle.std.specs.Prelude.{◌≡◌, ◌↔◌, IsTrue, pos, neg_ℤ, ◌*◌, ◌^◌, ◌<◌, ◌<ℤ◌, ◌≤ℤ◌};
ghost use Rattle.std.specs.Int.{int_div_euclid, int_max, int_min};
ghost use Rattle.page_model.specs.declared.easing.Easing.{Easing};
ghost use Rattle.page_model.specs.Enclosure.{IsLoose, own as own_kind};
ghost use Rattle.page_model.specs.Fraction.{Fraction};
ghost use Rattle.page_model.specs.ValidScene.{IsBetween};
ghost use Rattle.slot_values.specs.Ends.{end_of, nothing_made, AreEnds, IsEnd};
ghost use Rattle.slot_values.specs.Slots as definition;
ghost use Rattle.slot_values.specs.Slots.{loose_as, slot_as, IsInSlot};

use crate::types::Slot;
use fix_span::{Encloses, Frac, Loose, mix};

/// The number on the way from one to another at an end, in parts of the end's denominator.
pub fn between(from: i32, to: i32, end: Frac) -> i128
    requires { IsEnd end }
    ensures value { result ≡ definition.between from to (end_of end) }
    ensures range { IsBetween (neg_ℤ (pos (2 ^ 100))) (pos (2 ^ 100)) result }
{
    mix(Frac::whole(from as i64), Frac::whole(to as i64), end).num
}

/// The lesser and the greater of two values.
pub fn loose_of(first: i32, second: i32) -> Loose
    ensures { loose_as result ≡ definition.loose_of first second }
{
    Loose {
        lo: first.min(second),
        hi: first.max(second),
    }
}

/// Whether a number is less than 2^62, either way.
fn is_small(value: i128) -> bool
    ensures { IsTrue result ↔ IsBetween (neg_ℤ (pos (2 ^ 62))) (pos (2 ^ 62)) value }
{
    -(1 << 62) <= value && value <= 1 << 62
}

/// The quotient of a number by a positive one, rounded down: in 64 bits where both fit.
fn quotient(value: i128, parts: i128) -> i128
    requires { pos 0 <ℤ parts }
    ensures { result ≡ int_div_euclid value parts }
{
    if !is_small(value) {
        return value.div_euclid(parts);
    }
    if !is_small(parts) {
        return value.div_euclid(parts);
    }
    (value as i64).div_euclid(parts as i64) as i128
}

/// A number over so many parts, rounded half up, and held in a range.
pub fn rounded(value: i128, parts: i128, least: i32, greatest: i32) -> i32
    requires some { pos 0 <ℤ parts }
    requires few { parts ≤ℤ pos (2 ^ 100) }
    requires range { IsBetween (neg_ℤ (pos (2 ^ 100))) (pos (2 ^ 100)) value }
    ensures { result ≡ int_max least (int_min (definition.half_up value parts) greatest) }
{
    let whole = quotient(2 * value + parts, 2 * parts);
    whole.min(greatest as i128).max(least as i128) as i32
}

/// In how many parts a slot's unit is counted at an end.
fn parts_of(slot: Slot, end: Frac) -> i128
    requires unit { 0 < slot.unit }
    requires end { IsEnd end }
    ensures value { result ≡ pos (slot.unit * (end_of end).den) }
    ensures some { pos 0 <ℤ result }
    ensures few { result ≤ℤ pos (2 ^ 100) }
{
    slot.unit as i128 * end.den
}

/// The value of a slot at an end: rounded half up, and held in the range.
#[inline(always)]
fn value_at(slot: Slot, from: i32, to: i32, end: Frac) -> i32
    requires unit { 0 < slot.unit }
    requires end { IsEnd end }
    ensures { result ≡ definition.value_at (slot_as slot) from to (end_of end) }
{
    let value = between(from, to, end);
    rounded(value, parts_of(slot, end), slot.least, slot.greatest)
}

/// Whether two ends are written as one.
pub fn are_same(first: Frac, second: Frac) -> bool
    ensures { IsTrue result ↔ (first ≡ second) }
{
    first == second
}

/// The value of a slot that stays at a number: that of a way of which nothing is made.
#[inline(always)]
pub fn still(slot: Slot, own: i32) -> Loose
    requires { 0 < slot.unit }
    ensures { loose_as result
        ≡ definition.slot_between (slot_as slot) own own nothing_made nothing_made }
{
    let value = rounded(own as i128, slot.unit as i128, slot.least, slot.greatest);
    Loose {
        lo: value,
        hi: value,
    }
}

/// The value of a slot at two ends, the lesser first.
#[inline(always)]
fn slot_at_ends(slot: Slot, from: i32, to: i32, least: Frac, greatest: Frac) -> Loose
    requires unit { 0 < slot.unit }
    requires least { IsEnd least }
    requires greatest { IsEnd greatest }
    ensures { loose_as result
        ≡ definition.slot_between (slot_as slot) from to (end_of least) (end_of greatest) }
{
    if from == to {
        return still(slot, from);
    }
    let first = value_at(slot, from, to, least);
    if are_same(least, greatest) {
        return loose_of(first, first);
    }
    loose_of(first, value_at(slot, from, to, greatest))
}

/// The value of a slot on the way from one number to another, between its values at two ends: rounded half up, and
/// held in the slot's range.
#[inline(always)]
pub fn slot_value(slot: Slot, from: i32, to: i32, least: Frac, greatest: Frac) -> Loose
    requires unit { 0 < slot.unit }
    requires least { IsEnd least }
    requires greatest { IsEnd greatest }
    ensures value { loose_as result
        ≡ definition.slot_between (slot_as slot) from to (end_of least) (end_of greatest) }
    ensures own { (easing : Easing) (x : Fraction) → AreEnds easing x (end_of least) (end_of greatest)
        → slot.least ≤ℤ slot.greatest → IsLoose own_kind (slot_as slot) easing x from to (loose_as result) }
    ensures range { slot.least ≤ℤ slot.greatest → IsInSlot (slot_as slot) (loose_as result) }
{
    slot_at_ends(slot, from, to, least, greatest)
}
