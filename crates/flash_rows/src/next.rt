// The words of the next frame.
ghost use Rattle.std.specs.Prelude.{◌≡◌, ◌+◌, ◌*◌, ◌≤◌, length};
ghost use Rattle.tint_changes.specs.Made.{IsKnown};
ghost use Rattle.flash_rows.specs.Pushing.{AreSmall, BoundsAfter, EndedAfter, HaveStarts, RunAfter, TellAfter};

use crate::bounds::{Bounds, bounds_in, bounds_of, bounds_with};
use crate::ended::{Ended, ended_at, ended_before};
use crate::latest::Latest;
use crate::starts::latest_starts;
use crate::still::{is_still, run_after, words_kept};
use crate::words::first_word;
use page_model::Tint;
use tint_changes::{NextTint, next_tint};

/// The words of the next frame; the bounds that the row has from then on; and where the latest chains start that end by
/// that frame, as it sees them.
#[derive(Clone, Copy)]
pub struct Next {
    pub words: [u64; 9],
    pub bounds: Bounds,
    pub ended: Ended,
}

/// The words of a frame, by its tint, by of how many frames it is the tint, and by the latest starts.
fn words_of(tint: Tint, run: u8, latest: &Latest) -> [u64; 9]
    requires { AreSmall latest.now }
    ensures { HaveStarts tint run latest.now result }
{
    let Latest { light, red } = *latest;
    [
        first_word(tint, run),
        light.up.word(),
        light.down.word(),
        light.surely_up.word(),
        light.surely_down.word(),
        red.up.word(),
        red.down.word(),
        red.surely_up.word(),
        red.surely_down.word(),
    ]
}

/// The next frame, by looking back on the frames of the window.
fn looked_up(row: &[u64], rate: u16, turn: u32, next: &NextTint, run: u8) -> Next
    requires some { 1 ≤ rate }
    requires limit { rate ≤ 240 }
    requires room { 9 * (rate + 1) ≤ length row.now }
    requires known { IsKnown next.now }
    requires run { RunAfter rate row.now turn next.now.tint run }
    ensures words { TellAfter rate row.now turn next.now.tint result.words }
    ensures bounds { BoundsAfter rate row.now turn next.now.tint result.bounds }
    ensures ended { EndedAfter rate row.now turn next.now.tint result.ended }
{
    let latest = latest_starts(row, rate, turn, next);
    Next {
        words: words_of(next.tint, run, &latest),
        bounds: bounds_with(bounds_of(row, rate, turn), next),
        ended: ended_at(ended_before(row, rate), &latest),
    }
}

/// The next frame, with its tint.
pub fn next_words(row: &[u64], rate: u16, turn: u32, tint: Tint) -> Next
    requires some { 1 ≤ rate }
    requires limit { rate ≤ 240 }
    requires room { 9 * (rate + 1) ≤ length row.now }
    ensures words { TellAfter rate row.now turn tint result.words }
    ensures bounds { BoundsAfter rate row.now turn tint result.bounds }
    ensures ended { EndedAfter rate row.now turn tint result.ended }
{
    let run = run_after(row, rate, turn, tint);
    if is_still(row, rate, turn, tint) {
        return Next {
            words: words_kept(row, rate, turn, tint, run),
            bounds: bounds_in(row, rate),
            ended: ended_before(row, rate),
        };
    }
    looked_up(row, rate, turn, &next_tint(tint), run)
}
