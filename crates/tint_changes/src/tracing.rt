// The first chain of two opposing changes in a list of tints.
ghost use Rattle.std.specs.Prelude.{◌≡◌, ◌+◌, ◌<◌, ◌≤◌, ◌↔◌, length, false, IsTrue, MatchOption};
ghost use Rattle.page_model.specs.Flash.{IsNoLater};
ghost use Rattle.tint_changes.specs.Chains.{IsChainOf};
ghost use Rattle.tint_changes.specs.Counting.{Begins, CountsFirst, CountsSecond, Makes, MakesAt};
ghost use Rattle.tint_changes.specs.Runs.{FirstOf, FirstRunOf, FollowsFirstOf, IsEarlier, LeadsOn, LeadsOnFirst};

use crate::changes::Opposing;
use crate::counting::{Counts, MOST, full_place};
use page_model::Tint;

/// How many frames make a chain.
pub const FRAMES: usize = 9;

/// The first chain of two opposing changes, of which either may come first.
pub fn first_chain(tints: &[Tint], opposing: Opposing) -> Option<[u16; FRAMES]>
    requires { length tints.now ≤ 241 }
    ensures { FirstOf (IsChainOf (Makes opposing.first) (Makes opposing.second) tints.now) result }
{
    let counts = Counts::of(tints, opposing);
    let up = first_run(tints, opposing, &counts.first, &counts.second);
    let down = first_run(tints, opposing.turned(), &counts.second, &counts.first);
    earlier(up, down)
}

/// The first run of nine places in which the first of two opposing changes comes first.
fn first_run(
    tints: &[Tint],
    opposing: Opposing,
    first: &[u8; MOST],
    second: &[u8; MOST],
) -> Option<[u16; FRAMES]>
    requires fits { length tints.now ≤ 241 }
    requires first { CountsFirst opposing tints.now 0 first.now }
    requires second { CountsSecond opposing tints.now 0 second.now }
    ensures { FirstRunOf opposing tints.now result }
{
    let start = full_place(first, tints.len())?;
    let mut places = [start as u16; FRAMES];
    follow(tints, opposing, first, second, start, &mut places[1..]);
    Some(places)
}

/// Writes the first places that follow one.
fn follow(
    tints: &[Tint],
    opposing: Opposing,
    first: &[u8; MOST],
    second: &[u8; MOST],
    place: usize,
    places: &mut [u16],
)
    requires fits { length tints.now ≤ 241 }
    requires first { CountsFirst opposing tints.now 0 first.now }
    requires second { CountsSecond opposing tints.now 0 second.now }
    requires place { place < length tints.now }
    requires few { length places.old ≤ 8 }
    requires begins { Begins (MakesAt opposing.first tints.now) (MakesAt opposing.second tints.now) (length places.old) place }
    ensures { FollowsFirstOf opposing tints.now place places.new }
{
    if let Some((next, rest)) = places.split_first_mut() {
        let found = next_place(tints, opposing, second, place, rest.len());
        *next = found as u16;
        follow(tints, opposing.turned(), second, first, found, rest);
    }
}

/// The first place behind one that makes the first change with it, and from which so many more can
/// be had.
fn next_place(
    tints: &[Tint],
    opposing: Opposing,
    counts: &[u8; MOST],
    place: usize,
    more: usize,
) -> usize
    requires fits { length tints.now ≤ 241 }
    requires counts { CountsSecond opposing tints.now 0 counts.now }
    requires few { more < 8 }
    requires begins { Begins (MakesAt opposing.first tints.now) (MakesAt opposing.second tints.now) (more + 1) place }
    ensures { LeadsOnFirst opposing tints.now counts.now place more result }
{
    for later in place + 1..tints.len() {
        if leads_on(tints, opposing, place, later, more, counts[later]) {
            return later;
        }
    }
    unreachable!()
}

/// Whether a place makes the first change with an earlier one, and its count is enough.
fn leads_on(
    tints: &[Tint],
    opposing: Opposing,
    place: usize,
    later: usize,
    more: usize,
    count: u8,
) -> bool
    requires place { place < length tints.now }
    requires later { later < length tints.now }
    ensures { IsTrue result ↔ ((more ≤ count) × MakesAt opposing.first tints.now place later) }
{
    if usize::from(count) < more {
        return false;
    }
    opposing.first.is_made_at(tints, place, later)
}

/// The one of two runs that isn't after the other.
fn earlier(one: Option<[u16; FRAMES]>, other: Option<[u16; FRAMES]>) -> Option<[u16; FRAMES]>
    ensures { IsEarlier one other result }
{
    let Some(first) = one else {
        return other;
    };
    let Some(second) = other else {
        return one;
    };
    if is_no_later(&first, &second) {
        Some(first)
    } else {
        Some(second)
    }
}

/// Whether the first list isn't after the second, compared number by number from the front.
fn is_no_later(first: &[u16], second: &[u16]) -> bool
    ensures yes { IsTrue result → IsNoLater first.now second.now }
    ensures no { result ≡ false → IsNoLater second.now first.now }
{
    let Some((a, rest)) = first.split_first() else {
        return true;
    };
    let Some((b, others)) = second.split_first() else {
        return false;
    };
    if a == b {
        is_no_later(rest, others)
    } else {
        a < b
    }
}
