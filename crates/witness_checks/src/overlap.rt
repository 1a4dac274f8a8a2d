// Which two parts share a pixel.
ghost use Rattle.std.specs.Prelude.{◌↔◌, ◌^◌, ◌<◌, IsTrue, MatchOption, length};
ghost use Rattle.witness_checks.specs.Faults.{IsFirstOverlap, ShareAPixel};
ghost use Rattle.witness_checks.specs.Places.{AreApartBefore, ComesBefore, IsApartFrom, IsNextOverlap, ShareAPlace};

use page_model::Part;

/// The numbers of two parts.
#[derive(Clone, Copy)]
pub(crate) struct Pair {
    pub(crate) first: u32,
    pub(crate) second: u32,
}

/// Whether so many places from a start on, and so many from another on, have one in common.
fn share_a_place(start: u16, size: u16, other: u16, other_size: u16) -> bool
    ensures { IsTrue result ↔ ShareAPlace start size other other_size }
{
    let end = u32::from(start) + u32::from(size);
    let other_end = u32::from(other) + u32::from(other_size);
    u32::from(start.max(other)) < end.min(other_end)
}

/// Whether two parts share a pixel.
fn share_a_pixel(one: &Part, other: &Part) -> bool
    ensures { IsTrue result ↔ ShareAPixel one.now other.now }
{
    if !share_a_place(one.x, one.width, other.x, other.width) {
        return false;
    }
    share_a_place(one.y, one.height, other.y, other.height)
}

/// The first part behind a part that shares a pixel with it.
fn next_overlap(parts: &[Part], first: usize) -> Option<u32>
    requires known { first < length parts.now }
    requires few { length parts.now < 2 ^ 32 }
    ensures { MatchOption result (IsApartFrom parts.now first (length parts.now)) (λ second. IsNextOverlap parts.now first second) }
{
    for second in first + 1..parts.len() {
        if share_a_pixel(&parts[first], &parts[second]) {
            return Some(second as u32);
        }
    }
    None
}

/// The first two parts that share a pixel, by a look at all pairs.
fn first_overlap(parts: &[Part]) -> Option<Pair>
    requires { length parts.now < 2 ^ 32 }
    ensures { MatchOption result (AreApartBefore parts.now (length parts.now)) (λ pair. IsFirstOverlap parts.now pair.first pair.second) }
{
    for first in 0..parts.len() {
        if let Some(second) = next_overlap(parts, first) {
            return Some(Pair {
                first: first as u32,
                second,
            });
        }
    }
    None
}

/// Whether a part comes before another, row by row: it ends above the other one, or it has the same rows and ends at its left.
fn comes_before(one: &Part, other: &Part) -> bool
    ensures { IsTrue result ↔ ComesBefore one.now other.now }
{
    if u32::from(one.y) + u32::from(one.height) <= u32::from(other.y) {
        return true;
    }
    if one.y != other.y || one.height != other.height {
        return false;
    }
    u32::from(one.x) + u32::from(one.width) <= u32::from(other.x)
}

/// Whether the parts stand row by row, each before the next one, so that no two share a pixel. The cells of a grid do.
fn stand_in_order(parts: &[Part]) -> bool
    ensures { IsTrue result → AreApartBefore parts.now (length parts.now) }
{
    for next in 1..parts.len() {
        if !comes_before(&parts[next - 1], &parts[next]) {
            return false;
        }
    }
    true
}

/// The first two parts that share a pixel. All pairs are looked at only where the parts don't stand in order.
pub(crate) fn overlap(parts: &[Part]) -> Option<Pair>
    requires { length parts.now < 2 ^ 32 }
    ensures { MatchOption result (AreApartBefore parts.now (length parts.now)) (λ pair. IsFirstOverlap parts.now pair.first pair.second) }
{
    if stand_in_order(parts) {
        return None;
    }
    first_overlap(parts)
}
