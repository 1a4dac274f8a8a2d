// Where the latest chains start that end at the next frame.
ghost use Rattle.std.specs.Prelude.{ℕ, ◌≡◌, ◌+◌, ◌-◌, ◌*◌, ◌%◌, ◌<◌, ◌≤◌, length, max, min, slice_index};
ghost use Rattle.tint_changes.specs.declared.changes.Change.{Change};
ghost use Rattle.tint_changes.specs.Made.{IsKnown};
ghost use Rattle.flash_rows.specs.Rows.{byte};
ghost use Rattle.flash_rows.specs.Pushing.{AreSmall, AreStartsAfter, latest_of};

use crate::bounds::{bounds_of, is_near_all};
use crate::latest::{Latest, look_at, no_starts};
use byte_lanes::bytes_of;
use tint_changes::NextTint;

/// The place of the frame before the next one.
pub(crate) fn last_place(rate: u16, turn: u32) -> usize
    requires some { 1 ≤ rate }
    requires later { 0 < turn }
    ensures value { result ≡ (turn - 1) % rate }
    ensures inside { result < rate }
{
    (turn as usize - 1) % usize::from(rate)
}

/// The place of the frame that is so many before the next one.
fn place_back(rate: u16, turn: u32, age: usize) -> usize
    requires some { 1 ≤ rate }
    requires there { age ≤ turn }
    ensures value { result ≡ (turn - age) % rate }
    ensures inside { result < rate }
{
    (turn as usize - age) % usize::from(rate)
}

/// Of how many frames up to the one at a place, which follow one another, its tint is the tint: at least of that one.
fn run_at(row: &[u64], place: usize) -> usize
    requires { 9 * place + 9 ≤ length row.now }
    ensures value { result ≡ max 1 (byte (slice_index row.now (9 * place)) 6) }
    ensures small { result < 256 }
{
    let bytes = bytes_of(row[9 * place]);
    usize::from(bytes[6].max(1))
}

/// How many frames the next one looks back on: those of a window, or all where fewer went by.
fn frames_back(rate: u16, turn: u32) -> usize
    ensures { result ≡ min turn rate }
{
    turn.min(u32::from(rate)) as usize
}

/// Of each change, for one change up to eight, where the latest chain starts that ends at the next frame, and ends
/// with this change: one look back over the frames of the window. Of frames that follow one another with one tint the
/// last is enough: all that leads to an earlier one leads to it too, by a start that is no earlier.
fn looked_back(row: &[u64], rate: u16, turn: u32, next: &NextTint) -> Latest
    requires some { 1 ≤ rate }
    requires limit { rate ≤ 240 }
    requires room { 9 * (rate + 1) ≤ length row.now }
    requires known { IsKnown next.now }
    ensures starts { (change : Change) → AreStartsAfter rate row.now turn next.now.tint change (latest_of change result) }
    ensures small { AreSmall result }
{
    let back = frames_back(rate, turn);
    let mut best = no_starts(rate);
    let mut age = 1;
    'back: while age <= back {
        let place = place_back(rate, turn, age);
        look_at(&mut best, row, place, next, age as u8);
        age += run_at(row, place);
    }
    best
}

/// The same. Where the next tint is near all of the window, none of them makes a change with it.
pub(crate) fn latest_starts(row: &[u64], rate: u16, turn: u32, next: &NextTint) -> Latest
    requires some { 1 ≤ rate }
    requires limit { rate ≤ 240 }
    requires room { 9 * (rate + 1) ≤ length row.now }
    requires known { IsKnown next.now }
    ensures starts { (change : Change) → AreStartsAfter rate row.now turn next.now.tint change (latest_of change result) }
    ensures small { AreSmall result }
{
    if is_near_all(bounds_of(row, rate, turn), next) {
        return no_starts(rate);
    }
    looked_back(row, rate, turn, next)
}
