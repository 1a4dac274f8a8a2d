// How many iterations are over, and which one is the current one.
ghost use Rattle.std.specs.Prelude.{◌≡◌, ◌%◌, ◌≤◌};
ghost use Rattle.page_model.specs.Progress as definition;
ghost use Rattle.anim_timing.specs.Iterations.{ratio_as, iterations_as, turn_as};
ghost use Rattle.anim_timing.specs.Views.{extent_as, phase_as};

use crate::extent::Extent;
use crate::phases::Phase;
use crate::ratio::Ratio;
use page_model::{Count, Direction};

/// A number of iterations: a fraction, or infinitely many.
#[derive(Clone, Copy)]
pub enum Iterations {
    SoMany(Ratio),
    Infinite,
}

/// The number of an iteration, from 0, or none because there is no last one.
#[derive(Clone, Copy)]
pub enum Turn {
    Number(u64),
    NoLast,
}

/// All the iterations of a count.
fn all_of(count: Count) -> Iterations
    ensures { iterations_as result ≡ definition.all_of count }
{
    match count {
        Count::Times(thousandths) => Iterations::SoMany(Ratio {
            num: thousandths as u64,
            den: 1000,
        }),
        Count::Infinite => Iterations::Infinite,
    }
}

/// With no duration, none is over in the before phase, and all are over behind it.
fn overall_at_once(phase: Phase, count: Count) -> Iterations
    ensures { iterations_as result ≡ definition.overall_at_once (phase_as phase) count }
{
    match phase {
        Phase::Before => Iterations::SoMany(Ratio { num: 0, den: 1 }),
        Phase::Active | Phase::After => all_of(count),
    }
}

/// With a duration, the active time over the duration, both in thousands of the unit; behind the end it is the count.
fn overall_in_time(phase: Phase, count: Count, duration: u64, time: u64) -> Iterations
    requires some { 1000 ≤ duration }
    requires limit { duration ≤ 24000000000000 }
    ensures { iterations_as result ≡ definition.overall_in_time (phase_as phase) count duration time }
{
    match phase {
        Phase::Before | Phase::Active => Iterations::SoMany(Ratio {
            num: time / 1000,
            den: duration / 1000,
        }),
        Phase::After => all_of(count),
    }
}

/// The overall progress.
pub fn overall_progress(phase: Phase, count: Count, duration: u64, time: u64) -> Iterations
    requires limit { duration ≤ 24000000000000 }
    requires whole { duration % 1000 ≡ 0 }
    ensures { iterations_as result ≡ definition.overall_progress (phase_as phase) count duration time }
{
    if duration == 0 {
        overall_at_once(phase, count)
    } else {
        overall_in_time(phase, count, duration, time)
    }
}

/// The part of the current iteration that is over.
pub fn remainder_of(overall: Iterations) -> Ratio
    ensures value { ratio_as result ≡ definition.remainder_of (iterations_as overall) }
    ensures at_most_one { result.num ≤ result.den }
{
    match overall {
        Iterations::SoMany(x) => Ratio {
            num: x.num % x.den,
            den: x.den,
        },
        Iterations::Infinite => Ratio { num: 0, den: 1 },
    }
}

/// Whether it is the before phase.
fn is_before(phase: Phase) -> bool
    ensures { result ≡ definition.is_before (phase_as phase) }
{
    match phase {
        Phase::Before => true,
        Phase::Active | Phase::After => false,
    }
}

/// Whether the active time is the whole active duration.
fn is_whole(time: u64, length: Extent) -> bool
    ensures { result ≡ definition.is_whole time (extent_as length) }
{
    match length {
        Extent::Finite(length) => length >= 0 && time == length as u64,
        Extent::Endless => false,
    }
}

/// Whether there is no iteration at all.
fn is_none(count: Count) -> bool
    ensures { result ≡ definition.is_none count }
{
    match count {
        Count::Times(thousandths) => thousandths == 0,
        Count::Infinite => false,
    }
}

/// Whether an iteration has just ended and no other begins, so that its end counts as 1 and not as 0.
pub fn is_at_end(phase: Phase, count: Count, time: u64, length: Extent) -> bool
    ensures { result ≡ definition.is_at_end (phase_as phase) count time (extent_as length) }
{
    !is_before(phase) && is_whole(time, length) && !is_none(count)
}

/// The simple iteration progress, of the remainder.
pub fn simple_progress(rest: Ratio, at_end: bool) -> Ratio
    requires { rest.num ≤ rest.den }
    ensures value { ratio_as result ≡ definition.simple_progress (ratio_as rest) at_end }
    ensures at_most_one { result.num ≤ result.den }
{
    if rest.num == 0 && at_end {
        Ratio { num: 1, den: 1 }
    } else {
        rest
    }
}

/// The whole iterations that are over; at the end of one, that one is still the current one.
fn turn_at(overall: Iterations, simple: Ratio) -> Turn
    ensures { turn_as result ≡ definition.turn_at (iterations_as overall) (ratio_as simple) }
{
    match overall {
        Iterations::SoMany(x) => {
            let over = x.num / x.den;
            if simple.num == simple.den {
                Turn::Number(over.saturating_sub(1))
            } else {
                Turn::Number(over)
            }
        }
        Iterations::Infinite => Turn::NoLast,
    }
}

/// The current iteration: after infinitely many there is no last one.
pub fn current_turn(phase: Phase, count: Count, overall: Iterations, simple: Ratio) -> Turn
    ensures { turn_as result
        ≡ definition.current_turn (phase_as phase) count (iterations_as overall) (ratio_as simple) }
{
    match (phase, count) {
        (Phase::After, Count::Infinite) => Turn::NoLast,
        _ => turn_at(overall, simple),
    }
}

/// Whether an iteration runs backwards.
pub fn runs_backwards(direction: Direction, turn: Turn) -> bool
    ensures { result ≡ definition.runs_backwards direction (turn_as turn) }
{
    match (direction, turn) {
        (Direction::Normal, _) => false,
        (Direction::Reverse, _) => true,
        (Direction::Alternate, Turn::Number(n)) => n % 2 == 1,
        (Direction::AlternateReverse, Turn::Number(n)) => n % 2 == 0,
        (_, Turn::NoLast) => false,
    }
}

/// The directed progress: from the other end where the iteration runs backwards.
pub fn directed(backwards: bool, simple: Ratio) -> Ratio
    requires { simple.num ≤ simple.den }
    ensures value { ratio_as result ≡ definition.directed backwards (ratio_as simple) }
    ensures at_most_one { result.num ≤ result.den }
{
    if backwards {
        Ratio {
            num: simple.den - simple.num,
            den: simple.den,
        }
    } else {
        simple
    }
}
