// When an animation has settled: an endless one at its beginning, a paused one at once, each other one at its end.
ghost use Rattle.std.specs.Prelude.{pos, neg_ℤ, ◌≡◌, ◌≤◌, ◌*◌, ◌+ℤ◌, IsTrue};
ghost use Rattle.page_model.specs.Horizon.{has_settled};
ghost use Rattle.page_model.specs.Least.{IsLeast};
ghost use Rattle.page_model.specs.Progress.{above_zero};
ghost use Rattle.page_model.specs.Time.{signed_ticks_of, ticks_of};
ghost use Rattle.page_model.specs.ValidScene.{IsBetween};
ghost use Rattle.anim_timing.specs.Timed.{IsTimed};
ghost use Rattle.period_frames.specs.Settling.{length_of, settled_time_of};

use page_model::{Anim, Count, Setup};

/// The time of one frame, in units of 1/(1000 num) ms, at a rate of num / den.
pub(crate) fn frame_time(setup: &Setup) -> u64
    ensures value { result ≡ 1000000 * setup.now.den }
    ensures some { 1 ≤ result }
    ensures limit { result ≤ 1001000000 }
{
    1_000_000 * u64::from(setup.den())
}

/// A number of milliseconds in those units.
pub(crate) fn ticks(setup: &Setup, milliseconds: u32) -> u64
    requires { milliseconds ≤ 100000 }
    ensures value { result ≡ ticks_of setup.now milliseconds }
    ensures limit { result ≤ 240000000 * milliseconds }
    ensures slow { result ≤ 240000 * milliseconds * setup.now.den }
    ensures some { 1 ≤ milliseconds → 1 ≤ result }
{
    1000 * u64::from(milliseconds) * u64::from(setup.num())
}

/// How long behind its delay an animation still stirs, where it isn't endless, or else no time.
fn length(anim: &Anim, setup: &Setup) -> u64
    requires { IsTimed anim.now }
    ensures value { result ≡ length_of setup.now anim.now }
    ensures limit { result ≤ 240000000000000000 }
    ensures slow { result ≤ 240000000000000 * setup.now.den }
{
    match anim.count {
        Count::Times(thousandths) => {
            u64::from(thousandths) * u64::from(anim.duration) * u64::from(setup.num())
        }
        Count::Infinite => 0,
    }
}

/// The end of a length that begins at the delay, or 0 where that is before the start.
fn end_from(delay: i32, length: u64, setup: &Setup) -> u64
    requires delay { IsBetween (neg_ℤ (pos 100000)) (pos 100000) delay }
    requires length { length ≤ 240000000000000000 }
    requires slow { length ≤ 240000000000000 * setup.now.den }
    ensures value { result ≡ above_zero (signed_ticks_of setup.now delay +ℤ pos length) }
    ensures slow { result ≤ 240024000000000 * setup.now.den }
{
    let shift = ticks(setup, delay.unsigned_abs());
    if delay < 0 {
        length.saturating_sub(shift)
    } else {
        length + shift
    }
}

/// The time from the start on at which an animation has settled.
fn settled_time(anim: &Anim, setup: &Setup) -> u64
    requires { IsTimed anim.now }
    ensures value { result ≡ settled_time_of setup.now anim.now }
    ensures slow { result ≤ 240024000000000 * setup.now.den }
{
    if anim.paused {
        0
    } else {
        end_from(anim.delay, length(anim, setup), setup)
    }
}

/// The first frame by which an animation has settled.
pub(crate) fn settled_frame(anim: &Anim, setup: &Setup) -> u32
    requires { IsTimed anim.now }
    ensures { IsLeast (λ frame. IsTrue (has_settled setup.now anim.now frame)) result }
{
    settled_time(anim, setup).div_ceil(frame_time(setup)) as u32
}
