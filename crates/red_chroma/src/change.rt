// Possible and sure changes into and out of red, between two tints.
ghost use Rattle.std.specs.Prelude.{◌≡◌, ◌↔◌, IsTrue, false};
ghost use Rattle.page_model.specs.Change.{AreFarBy, IsPossiblyRed, IsSurelyRed, IsSingle, greatest_gap, least_gap};
ghost use Rattle.page_model.specs.Change.{IsPossiblyIntoRed, IsPossiblyOutOfRed, IsSurelyIntoRed, IsSurelyOutOfRed};

use crate::distance::{far_possible, far_sure, how_far};
use crate::saturation::{has_saturated, saturated};
use crate::types::RedChanges;
use page_model::Tint;

/// Whether some colour of the first tint changes to a saturated red of the second that is far from it. Where one of the
/// tints isn't a single colour, a saturated corner of the second is enough.
#[inline]
pub fn into_possible(from: Tint, to: Tint) -> bool
    ensures { IsTrue result ↔ IsPossiblyIntoRed from to }
{
    is_possible(from, to, to)
}

/// Whether both tints are single colours, the second a saturated red that is surely far from the first.
#[inline]
pub fn into_sure(from: Tint, to: Tint) -> bool
    ensures { IsTrue result ↔ IsSurelyIntoRed from to }
{
    is_sure(from, to, to)
}

/// Whether some saturated red of the first tint changes to a colour of the second that is far from it. Where one of the
/// tints isn't a single colour, a saturated corner of the first is enough.
#[inline]
pub fn out_possible(from: Tint, to: Tint) -> bool
    ensures { IsTrue result ↔ IsPossiblyOutOfRed from to }
{
    is_possible(from, to, from)
}

/// Whether both tints are single colours, the first a saturated red that is surely far from the second.
#[inline]
pub fn out_sure(from: Tint, to: Tint) -> bool
    ensures { IsTrue result ↔ IsSurelyOutOfRed from to }
{
    is_sure(from, to, from)
}

/// All four at once. Of two single colours the coordinates are looked at once, and only where one of them is saturated.
pub fn red_changes(from: Tint, to: Tint) -> RedChanges
    ensures into_possible { IsTrue result.into_possible ↔ IsPossiblyIntoRed from to }
    ensures out_possible { IsTrue result.out_possible ↔ IsPossiblyOutOfRed from to }
    ensures into_sure { IsTrue result.into_sure ↔ IsSurelyIntoRed from to }
    ensures out_sure { IsTrue result.out_sure ↔ IsSurelyOutOfRed from to }
{
    if are_single(from, to) {
        return colour_changes(from, to);
    }
    RedChanges {
        into_possible: has_saturated(to),
        out_possible: has_saturated(from),
        into_sure: false,
        out_sure: false,
    }
}

/// No change into or out of red.
const UNCHANGED: RedChanges = RedChanges {
    into_possible: false,
    out_possible: false,
    into_sure: false,
    out_sure: false,
};

/// The red changes between two single colours.
fn colour_changes(from: Tint, to: Tint) -> RedChanges
    requires first { IsSingle from }
    requires second { IsSingle to }
    ensures into_possible { IsTrue result.into_possible ↔ IsPossiblyIntoRed from to }
    ensures out_possible { IsTrue result.out_possible ↔ IsPossiblyOutOfRed from to }
    ensures into_sure { IsTrue result.into_sure ↔ IsSurelyIntoRed from to }
    ensures out_sure { IsTrue result.out_sure ↔ IsSurelyOutOfRed from to }
{
    let out = saturated(from.lo);
    let into = saturated(to.lo);
    if neither(out, into) {
        return UNCHANGED;
    }
    let far = how_far(from.lo, to.lo);
    RedChanges {
        into_possible: both(into, far.possible),
        out_possible: both(out, far.possible),
        into_sure: both(into, far.sure),
        out_sure: both(out, far.sure),
    }
}

/// Whether two facts hold.
#[inline]
fn both(one: bool, other: bool) -> bool
    ensures { IsTrue result ↔ (IsTrue one × IsTrue other) }
{
    one && other
}

/// Whether two facts fail.
#[inline]
fn neither(one: bool, other: bool) -> bool
    ensures { IsTrue result ↔ ((one ≡ false) × (other ≡ false)) }
{
    !one && !other
}

/// Whether a red change is possible between two tints, where `red` has to be saturated.
#[inline]
fn is_possible(from: Tint, to: Tint, red: Tint) -> bool
    ensures { IsTrue result ↔ IsPossiblyRed (AreFarBy greatest_gap) from to red }
{
    if are_single(from, to) {
        saturated(red.lo) && far_possible(from.lo, to.lo)
    } else {
        has_saturated(red)
    }
}

/// Whether a red change is sure.
#[inline]
fn is_sure(from: Tint, to: Tint, red: Tint) -> bool
    ensures { IsTrue result ↔ IsSurelyRed (AreFarBy least_gap) from to red }
{
    are_single(from, to) && saturated(red.lo) && far_sure(from.lo, to.lo)
}

/// Whether both tints are single colours.
#[inline]
fn are_single(a: Tint, b: Tint) -> bool
    ensures { IsTrue result ↔ (IsSingle a × IsSingle b) }
{
    a.lo == a.hi && b.lo == b.hi
}
