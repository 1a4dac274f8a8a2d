// How many opposing changes in turn can be had from each place of a list of tints.
ghost use Rattle.std.specs.Prelude.{◌+◌, ◌<◌, ◌≤◌, length};
ghost use Rattle.tint_changes.specs.Counting.{CountsFirst, CountsSecond, IsCountBefore, IsCountOf, IsFirstFull, MakesAt};

use crate::changes::Opposing;
use page_model::Tint;

/// The most tints that a window holds: one more than the greatest rate.
pub(crate) const MOST: usize = 241;

/// How many changes make a chain.
pub(crate) const CHANGES: u8 = 8;

/// How many changes in turn can be had from each place, up to eight: where the first of two
/// opposing changes comes first, and where the second does.
#[derive(Drop)]
pub(crate) struct Counts {
    pub(crate) first: [u8; MOST],
    pub(crate) second: [u8; MOST],
}

/// The count of a place with one later place more: a change there, and what can be had from it.
fn counted(
    tints: &[Tint],
    opposing: Opposing,
    place: usize,
    later: usize,
    count: u8,
    after: u8,
) -> u8
    requires place { place < later }
    requires later { later < length tints.now }
    requires count { IsCountBefore (MakesAt opposing.first tints.now) (MakesAt opposing.second tints.now) place later count }
    requires after { IsCountOf (record { first = opposing.second; second = opposing.first }) tints.now later after }
    ensures { IsCountBefore (MakesAt opposing.first tints.now) (MakesAt opposing.second tints.now) place (later + 1) result }
{
    if after < count {
        return count;
    }
    if count == CHANGES {
        return count;
    }
    if !opposing.first.is_made_at(tints, place, later) {
        return count;
    }
    (after + 1).min(CHANGES)
}

/// How many changes can be had from a place, by the counts of the places behind it where the
/// opposite change comes first.
fn count_from(tints: &[Tint], opposing: Opposing, place: usize, next: &[u8; MOST]) -> u8
    requires place { place < length tints.now }
    requires fits { length tints.now ≤ 241 }
    requires next { CountsSecond opposing tints.now (place + 1) next.now }
    ensures { IsCountOf opposing tints.now place result }
{
    let mut count = 0;
    for later in place + 1..tints.len() {
        count = counted(tints, opposing, place, later, count, next[later]);
    }
    count
}

impl Counts {
    /// The counts of all places.
    pub(crate) fn of(tints: &[Tint], opposing: Opposing) -> Counts
        requires fits { length tints.now ≤ 241 }
        ensures first { CountsFirst opposing tints.now 0 result.first }
        ensures second { CountsSecond opposing tints.now 0 result.second }
    {
        let mut counts = Counts {
            first: [0; MOST],
            second: [0; MOST],
        };
        for place in (0..tints.len()).rev() {
            let first = count_from(tints, opposing, place, &counts.second);
            let second = count_from(tints, opposing.turned(), place, &counts.first);
            counts.first[place] = first;
            counts.second[place] = second;
        }
        counts
    }
}

/// The first of so many places from which a whole chain can be had.
pub(crate) fn full_place(counts: &[u8; MOST], places: usize) -> Option<usize>
    requires { places ≤ 241 }
    ensures { IsFirstFull counts.now places result }
{
    for place in 0..places {
        if counts[place] == CHANGES {
            return Some(place);
        }
    }
    None
}
