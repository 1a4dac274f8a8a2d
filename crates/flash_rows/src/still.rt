// The words of a frame whose tint is that of the frame before.
ghost use Rattle.std.specs.Prelude.{ℕ, ◌≡◌, ◌+◌, ◌*◌, ◌<◌, ◌≤◌, ◌↔◌, IsTrue, length, min};
ghost use Rattle.tint_changes.specs.declared.changes.Change.{Change};
ghost use Rattle.tint_changes.specs.Counting.{Makes};
ghost use Rattle.flash_rows.specs.Pushing.{IsStill, RunAfter, TellAfter};
ghost use Rattle.flash_rows.specs.Rows.{byte};

use crate::starts::last_place;
use crate::words::{first_word, tint_of};
use byte_lanes::{bytes_of, word_of};
use page_model::Tint;
use tint_changes::{are_none, is_single, made_by_light, made_by_red, next_tint};

/// A number, seen from one frame later.
pub(crate) fn later(number: u8, rate: u16) -> u8
    requires limit { rate ≤ 240 }
    ensures { result ≡ min (number + 1) (rate + 1) }
{
    number.saturating_add(1).min(rate as u8 + 1)
}

/// Whether no change lies between a tint and itself. It may where the tint is no single colour.
fn changes_nothing(tint: Tint) -> bool
    ensures { IsTrue result ↔ ((change : Change) → Makes change tint tint → ⊥) }
{
    if is_single(tint) {
        return true;
    }
    let next = next_tint(tint);
    let light = made_by_light(tint, &next);
    let red = made_by_red(tint, tint);
    are_none(light, red)
}

/// Whether two tints are the same.
fn are_same(a: Tint, b: Tint) -> bool
    ensures { IsTrue result ↔ (a ≡ b) }
{
    a == b
}

/// Of how many frames up to the next one, which follow one another, its tint is the tint.
pub(crate) fn run_after(row: &[u64], rate: u16, turn: u32, tint: Tint) -> u8
    requires some { 1 ≤ rate }
    requires limit { rate ≤ 240 }
    requires room { 9 * (rate + 1) ≤ length row.now }
    ensures { RunAfter rate row.now turn tint result }
{
    if turn == 0 {
        return 1;
    }
    let place = last_place(rate, turn);
    let before = tint_of(row[9 * place]);
    if !are_same(before, tint) {
        return 1;
    }
    let bytes = bytes_of(row[9 * place]);
    later(bytes[6], rate)
}

/// Whether the next tint is that of the frame before, and no change lies between the two.
pub(crate) fn is_still(row: &[u64], rate: u16, turn: u32, tint: Tint) -> bool
    requires some { 1 ≤ rate }
    requires limit { rate ≤ 240 }
    requires room { 9 * (rate + 1) ≤ length row.now }
    ensures { IsTrue result ↔ IsStill rate row.now turn tint }
{
    if turn == 0 {
        return false;
    }
    let place = last_place(rate, turn);
    let before = tint_of(row[9 * place]);
    if !are_same(before, tint) {
        return false;
    }
    changes_nothing(tint)
}

/// The numbers of a word, seen from the next frame.
fn later_word(word: u64, rate: u16) -> u64
    requires limit { rate ≤ 240 }
    ensures { (i : ℕ) → i < 8 → byte result i ≡ min (byte word i + 1) (rate + 1) }
{
    let mut bytes = bytes_of(word);
    for i in 0..8 {
        bytes[i] = later(bytes[i], rate);
    }
    word_of(bytes)
}

/// The words of the next frame where nothing changes: all starts are one frame further off.
pub(crate) fn words_kept(row: &[u64], rate: u16, turn: u32, tint: Tint, run: u8) -> [u64; 9]
    requires some { 1 ≤ rate }
    requires limit { rate ≤ 240 }
    requires room { 9 * (rate + 1) ≤ length row.now }
    requires still { IsStill rate row.now turn tint }
    requires run { RunAfter rate row.now turn tint run }
    ensures { TellAfter rate row.now turn tint result }
{
    let place = last_place(rate, turn);
    [
        first_word(tint, run),
        later_word(row[9 * place + 1], rate),
        later_word(row[9 * place + 2], rate),
        later_word(row[9 * place + 3], rate),
        later_word(row[9 * place + 4], rate),
        later_word(row[9 * place + 5], rate),
        later_word(row[9 * place + 6], rate),
        later_word(row[9 * place + 7], rate),
        later_word(row[9 * place + 8], rate),
    ]
}
