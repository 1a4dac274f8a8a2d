// The times of an animation, in units of 1/(1000 num) ms, at a rate of num / den.
ghost use Rattle.std.specs.Prelude.{◌≡◌, ℕ, pos, neg_ℤ, ◌*◌, ◌%◌, ◌^◌, ◌<◌, ◌≤◌, ◌≤ℤ◌};
ghost use Rattle.page_model.specs.Progress as definition;
ghost use Rattle.page_model.specs.Time.{time_of, ticks_of, signed_ticks_of, thousandths_of};
ghost use Rattle.page_model.specs.ValidScene.{IsBetween};
ghost use Rattle.anim_timing.specs.Timed.{IsTimed};
ghost use Rattle.anim_timing.specs.Views.{extent_as, IsShort};

use crate::extent::{Extent, later_by, lesser, lesser_extent, not_before_zero};
use page_model::{Anim, Count, Setup};

/// The local time at a frame: a paused animation stays at its start.
pub fn local_time(anim: &Anim, setup: &Setup, k: u64) -> i64
    requires { k < 2 ^ 32 }
    ensures value { result ≡ definition.local_time_of setup.now anim.now k }
    ensures range { IsBetween (pos 0) (pos (1001000000 * 2 ^ 32)) result }
{
    if anim.paused {
        0
    } else {
        moment(setup, k) as i64
    }
}

/// The moment of a frame.
fn moment(setup: &Setup, k: u64) -> u64
    requires { k < 2 ^ 32 }
    ensures value { result ≡ time_of setup.now k }
    ensures limit { result ≤ 1001000000 * 2 ^ 32 }
{
    1_000_000 * u64::from(setup.den()) * k
}

/// A number of milliseconds.
fn ticks(setup: &Setup, milliseconds: u32) -> u64
    requires { milliseconds ≤ 100000 }
    ensures value { result ≡ ticks_of setup.now milliseconds }
    ensures limit { result ≤ 240000000 * milliseconds }
{
    1000 * milliseconds as u64 * setup.num() as u64
}

/// The delay, which may be negative.
pub fn delay(anim: &Anim, setup: &Setup) -> i64
    requires { IsTimed anim.now }
    ensures value { result ≡ definition.delay_of setup.now anim.now }
    ensures range { IsBetween (neg_ℤ (pos 24000000000000)) (pos 24000000000000) result }
{
    ticks(setup, 1) as i64 * anim.delay as i64
}

/// The duration of one iteration.
pub fn duration(anim: &Anim, setup: &Setup) -> u64
    requires { IsTimed anim.now }
    ensures value { result ≡ definition.duration_of setup.now anim.now }
    ensures limit { result ≤ 24000000000000 }
    ensures whole { result % 1000 ≡ 0 }
{
    ticks(setup, anim.duration)
}

/// So many thousandths of a number of milliseconds.
fn thousandths(setup: &Setup, thousandths: u32, milliseconds: u32) -> u64
    requires count { thousandths ≤ 10000000 }
    requires time { milliseconds ≤ 100000 }
    ensures value { result ≡ thousandths_of setup.now thousandths milliseconds }
    ensures limit { result ≤ 240000000000000000 }
{
    thousandths as u64 * milliseconds as u64 * setup.num() as u64
}

/// The active duration: so many iterations; infinitely many of no duration take no time.
pub fn active_duration(anim: &Anim, setup: &Setup) -> Extent
    requires { IsTimed anim.now }
    ensures value { extent_as result ≡ definition.active_duration_of setup.now anim.now }
    ensures range { IsShort (extent_as result) }
{
    match anim.count {
        Count::Times(count) => Extent::Finite(thousandths(setup, count, anim.duration) as i64),
        Count::Infinite => {
            if anim.duration == 0 {
                Extent::Finite(0)
            } else {
                Extent::Endless
            }
        }
    }
}

/// The delay and the active duration together.
fn active_end(anim: &Anim, setup: &Setup) -> Extent
    requires { IsTimed anim.now }
    ensures { extent_as result ≡ definition.active_end_of setup.now anim.now }
{
    later_by(delay(anim, setup), active_duration(anim, setup))
}

fn end_time(anim: &Anim, setup: &Setup) -> Extent
    requires { IsTimed anim.now }
    ensures { extent_as result ≡ definition.end_time_of setup.now anim.now }
{
    not_before_zero(active_end(anim, setup))
}

/// The time from which on the animation is active, if it ever is: the before-active boundary time.
pub fn active_from(anim: &Anim, setup: &Setup) -> i64
    requires { IsTimed anim.now }
    ensures { result ≡ definition.active_from setup.now anim.now }
{
    lesser(delay(anim, setup), end_time(anim, setup)).max(0)
}

/// The time from which on it is over: the active-after boundary time.
pub fn after_from(anim: &Anim, setup: &Setup) -> Extent
    requires { IsTimed anim.now }
    ensures { extent_as result ≡ definition.after_from setup.now anim.now }
{
    not_before_zero(lesser_extent(active_end(anim, setup), end_time(anim, setup)))
}
