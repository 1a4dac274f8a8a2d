// Rows of words that stand for the tints of a pixel, and one push into them.
ghost use Rattle.std.specs.Prelude.{ℕ, List, ◌≡◌, ◌⊎◌, ◌↔◌, IsTrue, ◌+◌, ◌*◌, ◌^◌, ◌<◌, ◌≤◌, ◌++◌, ◌∷◌, [], length, slice_index};
ghost use Rattle.page_model.specs.declared.colour.Tint.{Tint};
ghost use Rattle.flash_rows.specs.Bounds.{bounds_at};
ghost use Rattle.flash_rows.specs.Rows.{StandsFor};
ghost use Rattle.flash_count.specs.Tracked.{Tells, last_of};

use crate::tracking::Flag;
use flash_rows::{Bounds, Ended, ended_word, next_words};
use page_model::Tint;

/// How many words a row has for a rate in frames per second: nine for each frame that a window looks back on, and as
/// many behind them, of which four hold the bounds of the tints and the starts of the chains that ended.
pub fn row_words(rate: u16) -> u32
    requires some { 1 ≤ rate }
    requires limit { rate ≤ 240 }
    ensures { result ≡ 9 * (rate + 1) }
{
    9 * (u32::from(rate) + 1)
}

/// No chain started in a window.
fn none(rate: u16) -> Ended
    requires limit { rate ≤ 240 }
    ensures possible { result.possible ≡ rate + 1 }
    ensures sure { result.sure ≡ rate + 1 }
{
    Ended {
        possible: rate as u8 + 1,
        sure: rate as u8 + 1,
    }
}

/// Makes a row stand for no tints.
pub fn row_begin(row: &mut [u64], rate: u16)
    requires some { 1 ≤ rate }
    requires limit { rate ≤ 240 }
    requires room { 9 * (rate + 1) ≤ length row.old }
    ensures { StandsFor rate [] row.new }
{
    row.fill(0);
    row[9 * usize::from(rate) + 3] = ended_word(none(rate), rate);
}

/// Writes the words of a frame at its place.
fn put(row: &mut [u64], place: usize, words: &[u64; 9])
    requires { 9 * place + 9 ≤ length row.old }
    ensures long { length row.new ≡ length row.old }
    ensures there { (i : ℕ) → i < 9 → slice_index row.new (9 * place + i) ≡ slice_index words.now i }
    ensures others { (i : ℕ) → (i < 9 * place) ⊎ (9 * place + 9 ≤ i) → slice_index row.new i ≡ slice_index row.old i }
{
    for i in 0..9 {
        row[9 * place + i] = words[i];
    }
}

/// Writes the bounds of the last tints, and where the latest chains start, behind the words of the frames.
fn put_last(row: &mut [u64], rate: u16, bounds: Bounds, ended: u64)
    requires { 9 * (rate + 1) ≤ length row.old }
    ensures long { length row.new ≡ length row.old }
    ensures bounds { bounds_at rate row.new ≡ bounds }
    ensures ended { slice_index row.new (9 * rate + 3) ≡ ended }
    ensures others { (i : ℕ) → i < 9 * rate → slice_index row.new i ≡ slice_index row.old i }
{
    let place = 9 * usize::from(rate);
    row[place] = bounds.least;
    row[place + 1] = bounds.greatest;
    row[place + 2] = bounds.mark;
    row[place + 3] = ended;
}

/// The flag by where the latest chains start.
fn flag_by(ended: Ended, rate: u16) -> Flag
    ensures possible { IsTrue result.possible ↔ (ended.possible ≤ rate) }
    ensures sure { IsTrue result.sure ↔ (ended.sure ≤ rate) }
{
    Flag {
        possible: u16::from(ended.possible) <= rate,
        sure: u16::from(ended.sure) <= rate,
    }
}

/// Adds the tint of the next frame to a row that stands for so many tints, and tells whether the
/// last of them, one more than the rate or all, have a chain of possible changes, and whether they
/// have one of sure changes.
pub fn row_push(row: &mut [u64], rate: u16, turn: u32, tint: Tint) -> Flag
    requires some { 1 ≤ rate }
    requires limit { rate ≤ 240 }
    requires room { 9 * (rate + 1) ≤ length row.old }
    requires few { turn < 2 ^ 31 }
    ensures stands { (tints : List Tint) → length tints ≡ turn → StandsFor rate tints row.old → StandsFor rate (tints ++ tint ∷ []) row.new }
    ensures flag { (tints : List Tint) → length tints ≡ turn → StandsFor rate tints row.old → Tells (last_of (rate + 1) (tints ++ tint ∷ [])) result }
{
    let next = next_words(row, rate, turn, tint);
    put(row, turn as usize % usize::from(rate), &next.words);
    put_last(row, rate, next.bounds, ended_word(next.ended, rate));
    flag_by(next.ended, rate)
}
