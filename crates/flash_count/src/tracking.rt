// The tints of a pixel, frame by frame, and whether they flash in the last window.
ghost use Rattle.std.specs.Prelude.{◌≡◌, ◌+◌, ◌^◌, ◌<◌, ◌≤◌, ◌↔◌, IsTrue};
ghost use Rattle.flash_count.specs.Chains.{HasPossibleChain, HasSureChain};
ghost use Rattle.flash_count.specs.Tracked.{pushed, untracked};

use crate::rows::{row_begin, row_push};
use page_model::{Rgb, Tint};
use std::marker::Model;

/// The most frames of a window, at the greatest rate.
const MOST_FRAMES: usize = 241;

/// The most words that a row has.
const MOST_WORDS: usize = 9 * MOST_FRAMES;

const BLACK: Tint = Tint {
    lo: Rgb { r: 0, g: 0, b: 0 },
    hi: Rgb { r: 0, g: 0, b: 0 },
};

/// Whether a window has more than three flashes, possibly and surely.
#[derive(Clone, Copy, Debug, PartialEq, Eq)]
pub struct Flag {
    pub possible: bool,
    pub sure: bool,
}

/// The last tints of a pixel: those of one window, or all where fewer were pushed; and their flag.
#[derive(Drop)]
pub struct Tracker {
    rate: u16,
    count: u32,
    row: [u64; MOST_WORDS],
    /// The tints of the last frames, each at the place of its number in a ring of one more than the rate.
    tints: [Tint; MOST_FRAMES],
    flag: Flag,
}

impl Model for Tracker {
    ghost use Rattle.flash_count.specs.Tracked.{KeepsTrack, Tracked, tints_in};

    ghost Value = { Tracked };

    ghost view = { λ t. record { rate = t.rate; count = t.count; recent = tints_in t.rate t.count t.tints } };

    ghost invariant = { λ t. KeepsTrack t.rate t.count t.row t.tints t.flag };
}

impl Tracker {
    /// A tracker before any push, for a rate in frames per second.
    pub fn new(rate: u16) -> Tracker
        requires some { 1 ≤ rate }
        requires limit { rate ≤ 240 }
        ensures { result ≡ untracked rate }
    {
        let mut row = [0; MOST_WORDS];
        row_begin(&mut row, rate);
        Tracker {
            rate,
            count: 0,
            row,
            tints: [BLACK; MOST_FRAMES],
            flag: Flag {
                possible: false,
                sure: false,
            },
        }
    }

    /// Adds the tint of the next frame.
    pub fn push(&mut self, tint: Tint)
        requires { self.old.count < 2 ^ 31 }
        ensures { self.new ≡ pushed tint self.old }
    {
        self.flag = row_push(&mut self.row, self.rate, self.count, tint);
        self.tints[self.count as usize % (usize::from(self.rate) + 1)] = tint;
        self.count += 1;
    }

    /// Whether the last tints, one more than the rate or all, have a chain of possible changes, and
    /// whether they have one of sure changes.
    pub fn flagged(&self) -> Flag
        ensures possible { IsTrue result.possible ↔ HasPossibleChain self.now.recent }
        ensures sure { IsTrue result.sure ↔ HasSureChain self.now.recent }
    {
        self.flag
    }
}
