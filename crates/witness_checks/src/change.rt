// Whether the stated tints of the parts change surely and in turn, each part's by its own kind.
ghost use Rattle.std.specs.Prelude.{◌↔◌, ◌≡◌, ◌^◌, ◌<◌, All, IsTrue, MatchOption, length};
ghost use Rattle.page_model.specs.WitnessConditions.{AlternatesSurely};
ghost use Rattle.witness_checks.specs.Faults.{IsFirstUnchanged};
ghost use Rattle.witness_checks.specs.Turns.{Changes, IsFirstStop, IsSureChange, Stops, TakeTurnsTo};

use page_model::{Kind, Part, Tint, Witness};
use red_chroma::{into_sure, out_sure};
use srgb_luma::{fall_sure, rise_sure};

/// How many turns a part tells.
const TURNS: usize = 9;

/// A part, and the turn at which its tints cease to change.
#[derive(Clone, Copy)]
pub(crate) struct Stop {
    pub(crate) part: u32,
    pub(crate) turn: u32,
}

/// Whether one tint changes surely to another by a kind: forwards (a rise, into red) or back (a fall, out of red).
fn is_sure_change(kind: Kind, forwards: bool, from: Tint, to: Tint) -> bool
    ensures { IsTrue result ↔ IsSureChange kind forwards from to }
{
    match (kind, forwards) {
        (Kind::General, true) => rise_sure(from, to),
        (Kind::General, false) => fall_sure(from, to),
        (Kind::Red, true) => into_sure(from, to),
        (Kind::Red, false) => out_sure(from, to),
    }
}

/// How many tints from the front on make both changes of a kind surely and in turn, the one forwards first or the one
/// back.
fn turns_taken(kind: Kind, first: bool, tints: &[Tint]) -> u32
    requires { length tints.now ≡ 9 }
    ensures { TakeTurnsTo kind first tints.now result }
{
    let mut forwards = first;
    for turn in 1..TURNS {
        if !is_sure_change(kind, forwards, tints[turn - 1], tints[turn]) {
            return turn as u32;
        }
        forwards = !forwards;
    }
    9
}

/// The first turn at which neither order of the changes of a kind has held.
fn unchanged_turn(kind: Kind, tints: &[Tint]) -> Option<u32>
    requires { length tints.now ≡ 9 }
    ensures { MatchOption result (AlternatesSurely kind tints.now) (λ turn. IsFirstUnchanged kind tints.now turn) }
{
    let taken = turns_taken(kind, true, tints).max(turns_taken(kind, false, tints));
    if taken < 9 {
        return Some(taken);
    }
    None
}

/// The turn at which the tints of a part cease to change.
fn stopping_turn(part: &Part) -> Option<u32>
    ensures { MatchOption result (Changes part.now) (λ turn. Stops part.now turn) }
{
    unchanged_turn(part.kind, &part.tints)
}

/// The first part whose tints cease to change, and the turn at which they do.
pub(crate) fn first_stop(witness: &Witness) -> Option<Stop>
    requires { length witness.now.parts < 2 ^ 32 }
    ensures { MatchOption result (All Changes witness.now.parts) (λ stop. IsFirstStop witness.now.parts stop.part stop.turn) }
{
    for (number, part) in witness.parts.as_slice().iter().enumerate() {
        if let Some(turn) = stopping_turn(part) {
            return Some(Stop {
                part: number as u32,
                turn,
            });
        }
    }
    None
}
