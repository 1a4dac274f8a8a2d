// After how many frames an endless animation does the same again.
ghost use Rattle.std.specs.Prelude.{◌≡◌, ◌≤◌, true};
ghost use Rattle.page_model.specs.Horizon as definition;
ghost use Rattle.anim_timing.specs.Timed.{IsTimed};

use crate::multiples::greatest_divisor;
use crate::settling::{frame_time, ticks};
use page_model::{Anim, Count, Direction, Setup};

/// Whether an animation runs for ever: it isn't paused, and has infinitely many iterations that take time.
pub(crate) fn is_endless(anim: &Anim) -> bool
    ensures { result ≡ definition.is_endless anim.now }
{
    !anim.paused && is_infinite(anim.count) && anim.duration != 0
}

/// Whether it is infinitely many.
fn is_infinite(count: Count) -> bool
    ensures { result ≡ definition.is_infinite count }
{
    match count {
        Count::Times(_) => false,
        Count::Infinite => true,
    }
}

/// Whether every other iteration runs the other way.
fn turns_round(direction: Direction) -> bool
    ensures { result ≡ definition.turns_round direction }
{
    match direction {
        Direction::Normal | Direction::Reverse => false,
        Direction::Alternate | Direction::AlternateReverse => true,
    }
}

/// The time of one cycle: the duration, or twice the duration of an animation that turns round.
fn cycle(anim: &Anim, setup: &Setup) -> u64
    requires { IsTimed anim.now }
    ensures value { result ≡ definition.cycle_of setup.now anim.now }
    ensures some { 1 ≤ anim.now.duration → 1 ≤ result }
{
    let duration = ticks(setup, anim.duration);
    if turns_round(anim.direction) {
        2 * duration
    } else {
        duration
    }
}

/// The least number of frames that is a whole number of cycles.
pub(crate) fn term(anim: &Anim, setup: &Setup) -> u64
    requires animation { IsTimed anim.now }
    requires endless { definition.is_endless anim.now ≡ true }
    ensures { definition.IsTerm setup.now anim.now result }
{
    let cycle = cycle(anim, setup);
    cycle / greatest_divisor(cycle, frame_time(setup))
}
