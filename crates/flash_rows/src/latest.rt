// Where the latest chains start that end with each change, lowered frame by frame.
ghost use Rattle.std.specs.Prelude.{ℕ, ◌≡◌, ◌+◌, ◌*◌, ◌<◌, ◌≤◌, IsTrue, length, slice_index};
ghost use Rattle.tint_changes.specs.declared.changes.Change.{Change};
ghost use Rattle.byte_lanes.specs.Lanes.{AreBelow, numbers_of};
ghost use Rattle.tint_changes.specs.Made.{IsKnown};
ghost use Rattle.flash_rows.specs.Pushing.{AreKindSmall, AreSmall, Lowered, LoweredBy, LoweredByLight, LoweredByRed, LoweredIf, LoweredKind, latest_of};

use crate::words::tint_of;
use byte_lanes::Numbers;
use tint_changes::{Made, NextTint, made_by_light, made_by_red, may_be_red};

/// For one change up to eight, where the latest chain starts that ends with a change of one kind: with a possible one
/// and with a sure one, and with their opposites.
#[derive(Clone, Copy)]
pub(crate) struct KindStarts {
    pub(crate) up: Numbers,
    pub(crate) down: Numbers,
    pub(crate) surely_up: Numbers,
    pub(crate) surely_down: Numbers,
}

/// The same of both kinds: rises and falls, and changes into and out of red.
#[derive(Clone, Copy)]
pub(crate) struct Latest {
    pub(crate) light: KindStarts,
    pub(crate) red: KindStarts,
}

/// No chain starts in a window of so many frames.
pub(crate) fn no_starts(rate: u16) -> Latest
    requires { rate ≤ 240 }
    ensures none { (change : Change) (n : ℕ) → n < 8 → slice_index (latest_of change result) n ≡ rate + 1 }
    ensures small { AreSmall result }
{
    let none = Numbers::all(rate as u8 + 1);
    let kind = KindStarts {
        up: none,
        down: none,
        surely_up: none,
        surely_down: none,
    };
    Latest {
        light: kind,
        red: kind,
    }
}

/// Makes the numbers of a change no greater than those of a frame so many frames before.
fn lower(best: &mut Numbers, word: u64, age: u8)
    requires { AreBelow 256 best.old }
    ensures lowered { Lowered (numbers_of best.old) word age (numbers_of best.new) }
    ensures small { AreBelow 256 best.new }
{
    *best = best.least(Numbers::raised(word, age));
}

/// The same where the change is made.
fn lower_if(best: &mut Numbers, is_made: bool, word: u64, age: u8)
    requires { AreBelow 256 best.old }
    ensures lowered { LoweredIf (IsTrue is_made) (numbers_of best.old) word age (numbers_of best.new) }
    ensures small { AreBelow 256 best.new }
{
    if is_made {
        lower(best, word, age);
    }
}

/// The same for the changes of one kind: each goes on from the chains that end with its opposite. Their four words
/// stand side by side from a place on.
#[inline(never)]
fn lower_kind(best: &mut KindStarts, made: Made, row: &[u64], at: usize, age: u8)
    requires room { at + 4 ≤ length row.now }
    requires small { AreKindSmall best.old }
    ensures lowered { LoweredKind made row.now at age best.old best.new }
    ensures small { AreKindSmall best.new }
{
    lower_if(&mut best.up, made.up, row[at + 1], age);
    lower_if(&mut best.down, made.down, row[at], age);
    lower_if(&mut best.surely_up, made.surely_up, row[at + 3], age);
    lower_if(&mut best.surely_down, made.surely_down, row[at + 2], age);
}

/// The same where some change of luminance is made.
fn lower_by_light(best: &mut KindStarts, row: &[u64], place: usize, next: &NextTint, age: u8)
    requires room { 9 * place + 9 ≤ length row.now }
    requires known { IsKnown next.now }
    requires small { AreKindSmall best.old }
    ensures lowered { LoweredByLight row.now place next.now.tint age best.old best.new }
    ensures small { AreKindSmall best.new }
{
    let made = made_by_light(tint_of(row[9 * place]), next);
    if !made.is_none() {
        lower_kind(best, made, row, 9 * place + 1, age);
    }
}

/// The same where some change of red is made: where neither tint has a saturated corner, it is soon told that none is.
fn lower_by_red(best: &mut KindStarts, row: &[u64], place: usize, next: &NextTint, age: u8)
    requires room { 9 * place + 9 ≤ length row.now }
    requires known { IsKnown next.now }
    requires small { AreKindSmall best.old }
    ensures lowered { LoweredByRed row.now place next.now.tint age best.old best.new }
    ensures small { AreKindSmall best.new }
{
    if may_be_red(tint_of(row[9 * place]), next) {
        let made = made_by_red(tint_of(row[9 * place]), next.tint);
        lower_kind(best, made, row, 9 * place + 5, age);
    }
}

/// Makes the numbers of all changes no greater than those by way of the frame at a place, so many frames before.
pub(crate) fn look_at(best: &mut Latest, row: &[u64], place: usize, next: &NextTint, age: u8)
    requires room { 9 * place + 9 ≤ length row.now }
    requires known { IsKnown next.now }
    requires small { AreSmall best.old }
    ensures lowered { LoweredBy row.now place next.now.tint age best.old best.new }
    ensures small { AreSmall best.new }
{
    lower_by_light(&mut best.light, row, place, next, age);
    lower_by_red(&mut best.red, row, place, next, age);
}
