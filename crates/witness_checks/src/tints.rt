// Whether a part's pixels have the stated tints. In each turn the first pixel is painted, and the others too where a box's edge cuts
// the part, by states that are kept for the frame: so they are computed once for each frame of the window that is told.
ghost use Rattle.std.specs.Prelude.{ℕ, ◌≡◌, ◌^◌, ◌+◌, ◌<◌, length, All, IsTrue, MatchOption};
ghost use Rattle.page_model.specs.Enclosure.{LooseRun, LooseState};
ghost use Rattle.page_model.specs.TintOf.{tint_of as tint_by, tints_of};
ghost use Rattle.page_model.specs.ValidScene.{IsValid};
ghost use Rattle.page_model.specs.WitnessConditions.{HasTints};
ghost use Rattle.frame_state.specs.States.{AreOwn, states_as};
ghost use Rattle.paint_blend.specs.Paint.{AreReady};
ghost use Rattle.witness_checks.specs.Faults.{HoldsOwnTints, IsTimed, IsWrongTint};
ghost use Rattle.witness_checks.specs.Kept.{IsKept};
ghost use Rattle.even_parts.specs.Even.{AllHaveTint};
ghost use Rattle.witness_checks.specs.OwnTints.{IsFirstWrongColumn, IsFirstWrongOf, IsFirstWrongTurn, IsOwnIn, RowHasTint};

use crate::kept::{KeptStates, NO_STATES};
use even_parts::are_painted_evenly;
use frame_state::LayerState;
use page_model::{Part, Scene, Setup, Tint, Witness};
use paint_blend::tint_of;

/// How many turns a part tells.
const TURNS: usize = 9;

/// The most frames of a window: the states of each are kept at a place of their own.
const FRAMES: usize = 241;

/// A pixel whose tint isn't the stated one, and the part and turn of which it is stated: all numbered from 0.
#[derive(Clone, Copy)]
pub(crate) struct WrongPixel {
    pub part: u32,
    pub turn: u32,
    pub x: u32,
    pub y: u32,
}

/// A pixel of the viewport.
#[derive(Clone, Copy)]
struct Pixel {
    x: u16,
    y: u16,
}

/// A pixel whose tint isn't the stated one in a turn.
#[derive(Clone, Copy)]
struct WrongTurn {
    turn: u32,
    pixel: Pixel,
}

/// The first column of a row in which a part's pixel hasn't a tint, by the states of the layers.
fn wrong_in_row(
    scene: &Scene,
    states: &[LayerState],
    part: &Part,
    tint: Tint,
    y: u16,
) -> Option<u16>
    requires valid { IsValid scene.now }
    requires states { length states.now ≡ length scene.now.layers }
    requires ready { AreReady scene.now (states_as states.now) }
    requires columns { part.now.x + part.now.width < 2 ^ 16 }
    ensures { MatchOption result (RowHasTint (tint_by scene.now (states_as states.now)) part.now tint y)
        (λ x. IsFirstWrongColumn (tint_by scene.now (states_as states.now)) part.now tint y x) }
{
    for x in part.x..part.x + part.width {
        if tint_of(scene, states, x, y) != tint {
            return Some(x);
        }
    }
    None
}

/// The first pixel of a part that hasn't a tint, by the states of the layers: row by row.
fn wrong_in_rows(scene: &Scene, states: &[LayerState], part: &Part, tint: Tint) -> Option<Pixel>
    requires valid { IsValid scene.now }
    requires states { length states.now ≡ length scene.now.layers }
    requires ready { AreReady scene.now (states_as states.now) }
    requires columns { part.now.x + part.now.width < 2 ^ 16 }
    requires rows { part.now.y + part.now.height < 2 ^ 16 }
    ensures { MatchOption result (AllHaveTint (tint_by scene.now (states_as states.now)) part.now tint)
        (λ pixel. IsFirstWrongOf (tint_by scene.now (states_as states.now)) part.now tint pixel.x pixel.y) }
{
    for y in part.y..part.y + part.height {
        if let Some(x) = wrong_in_row(scene, states, part, tint, y) {
            return Some(Pixel { x, y });
        }
    }
    None
}

/// Whether all pixels of a part have a tint because the first one has it, and all boxes are painted as surely at each of them.
fn has_tint_evenly(scene: &Scene, states: &[LayerState], part: &Part, tint: Tint) -> bool
    requires valid { IsValid scene.now }
    requires states { length states.now ≡ length scene.now.layers }
    requires ready { AreReady scene.now (states_as states.now) }
    ensures { IsTrue result → AllHaveTint (tint_by scene.now (states_as states.now)) part.now tint }
{
    if !are_painted_evenly(states, part) {
        return false;
    }
    if tint_of(scene, states, part.x, part.y) != tint {
        return false;
    }
    true
}

/// The first pixel of a part that hasn't a tint, by the states of the layers. Each pixel is painted only where one can't speak for all.
fn wrong_by_states(scene: &Scene, states: &[LayerState], part: &Part, tint: Tint) -> Option<Pixel>
    requires valid { IsValid scene.now }
    requires states { length states.now ≡ length scene.now.layers }
    requires ready { AreReady scene.now (states_as states.now) }
    requires columns { part.now.x + part.now.width < 2 ^ 16 }
    requires rows { part.now.y + part.now.height < 2 ^ 16 }
    ensures { MatchOption result (AllHaveTint (tint_by scene.now (states_as states.now)) part.now tint)
        (λ pixel. IsFirstWrongOf (tint_by scene.now (states_as states.now)) part.now tint pixel.x pixel.y) }
{
    if has_tint_evenly(scene, states, part, tint) {
        return None;
    }
    wrong_in_rows(scene, states, part, tint)
}

/// The first pixel of a part that hasn't a tint in a frame, whose states are kept from then on.
fn wrong_in_frame(
    scene: &Scene,
    setup: &Setup,
    kept: &mut KeptStates,
    frame: u32,
    part: &Part,
    tint: Tint,
) -> Option<Pixel>
    requires valid { IsValid scene.now }
    requires kept { IsKept scene.now setup.now kept.old }
    requires columns { part.now.x + part.now.width < 2 ^ 16 }
    requires rows { part.now.y + part.now.height < 2 ^ 16 }
    ensures kept { IsKept scene.now setup.now kept.new }
    ensures wrong { MatchOption result
        ((states : ℕ → LooseState) → AreOwn scene.now setup.now frame states
        → AllHaveTint (tint_by scene.now states) part.now tint)
        (λ pixel. (states : ℕ → LooseState) → AreOwn scene.now setup.now frame states
        → IsFirstWrongOf (tint_by scene.now states) part.now tint pixel.x pixel.y) }
{
    kept.see(scene, setup, frame);
    wrong_by_states(scene, kept.states(scene), part, tint)
}

/// The first turn of a part in which a pixel hasn't the stated tint, and the first such pixel. States are kept by frame.
fn wrong_in_part(
    scene: &Scene,
    setup: &Setup,
    kept: &mut [KeptStates],
    part: &Part,
) -> Option<WrongTurn>
    requires valid { IsValid scene.now }
    requires places { length kept.old ≡ 241 }
    requires kept { All (IsKept scene.now setup.now) kept.old }
    requires columns { part.now.x + part.now.width < 2 ^ 16 }
    requires rows { part.now.y + part.now.height < 2 ^ 16 }
    ensures places { length kept.new ≡ 241 }
    ensures kept { All (IsKept scene.now setup.now) kept.new }
    ensures wrong { MatchOption result
        ((run : LooseRun) → IsOwnIn scene.now setup.now part.now run → HasTints (tints_of scene.now run) part.now)
        (λ wrong. (run : LooseRun) → IsOwnIn scene.now setup.now part.now run
        → IsFirstWrongTurn (tints_of scene.now run) part.now wrong.turn wrong.pixel.x wrong.pixel.y) }
{
    let frames: &[u32] = &part.frames;
    let tints: &[Tint] = &part.tints;
    for turn in 0..TURNS {
        if let Some(pixel) = wrong_in_frame(
            scene,
            setup,
            &mut kept[frames[turn] as usize % FRAMES],
            frames[turn],
            part,
            tints[turn],
        ) {
            return Some(WrongTurn {
                turn: turn as u32,
                pixel,
            });
        }
    }
    None
}

/// The first pixel whose tint isn't the stated one: part by part, turn by turn, row by row and column by column.
pub(crate) fn wrong_tint(scene: &Scene, setup: &Setup, witness: &Witness) -> Option<WrongPixel>
    requires valid { IsValid scene.now }
    requires few { length witness.now.parts < 2 ^ 32 }
    requires timed { IsTimed setup.now witness.now }
    ensures { MatchOption result (HoldsOwnTints scene.now setup.now witness.now)
        (λ wrong. IsWrongTint scene.now setup.now witness.now wrong.part wrong.turn wrong.x wrong.y) }
{
    // No part reaches past the viewport, whose sides are at most 4,096.
    let _sides = (setup.width(), setup.height());
    let mut kept = [NO_STATES; FRAMES];
    let parts = witness.parts.as_slice();
    for part in 0..parts.len() {
        if let Some(wrong) = wrong_in_part(scene, setup, &mut kept, &parts[part]) {
            return Some(WrongPixel {
                part: part as u32,
                turn: wrong.turn,
                x: u32::from(wrong.pixel.x),
                y: u32::from(wrong.pixel.y),
            });
        }
    }
    None
}
