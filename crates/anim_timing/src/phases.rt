// The phase of an animation, and its active time.
ghost use Rattle.std.specs.Prelude.{◌≡◌, ◌^◌, ◌<◌, ◌-ℤ◌, ℤ, pos, IfSome};
ghost use Rattle.page_model.specs.Progress as definition;
ghost use Rattle.anim_timing.specs.Timed.{IsTimed};
ghost use Rattle.anim_timing.specs.Views.{extent_as, phase_as};

use crate::extent::{Extent, has_come, lesser};
use crate::times::{active_duration, active_from, after_from, delay, local_time};
use page_model::{Anim, Fill, Setup};

/// The phases of an animation: before its active interval, in it, and after it.
#[derive(Clone, Copy)]
pub enum Phase {
    Before,
    Active,
    After,
}

/// The phase at a frame.
pub fn phase_at(anim: &Anim, setup: &Setup, k: u64) -> Phase
    requires frame { k < 2 ^ 32 }
    requires animation { IsTimed anim.now }
    ensures { phase_as result ≡ definition.phase_of setup.now anim.now k }
{
    let time = local_time(anim, setup, k);
    if time < active_from(anim, setup) {
        Phase::Before
    } else if has_come(time, after_from(anim, setup)) {
        Phase::After
    } else {
        Phase::Active
    }
}

/// Whether a fill has an effect in the before phase.
fn fills_before(fill: Fill) -> bool
    ensures { result ≡ definition.fills_before fill }
{
    match fill {
        Fill::Absent | Fill::Forwards => false,
        Fill::Backwards | Fill::Both => true,
    }
}

/// Whether a fill has an effect in the after phase.
fn fills_after(fill: Fill) -> bool
    ensures { result ≡ definition.fills_after fill }
{
    match fill {
        Fill::Absent | Fill::Backwards => false,
        Fill::Forwards | Fill::Both => true,
    }
}

/// A number, or 0 in place of a negative one.
fn above_zero(time: i64) -> u64
    ensures { result ≡ definition.above_zero time }
{
    if time < 0 { 0 } else { time as u64 }
}

/// The active time in a phase, or none where there is no effect.
fn active_time_in(phase: Phase, fill: Fill, elapsed: i64, length: Extent) -> Option<u64>
    ensures { result ≡ definition.active_time_in (phase_as phase) fill elapsed (extent_as length) }
{
    match phase {
        Phase::Before => {
            if fills_before(fill) {
                Some(above_zero(elapsed))
            } else {
                None
            }
        }
        Phase::Active => Some(above_zero(elapsed)),
        Phase::After => {
            if fills_after(fill) {
                Some(above_zero(lesser(elapsed, length)))
            } else {
                None
            }
        }
    }
}

/// The active time at a frame whose phase is given, or none where there is no effect.
pub fn active_time(anim: &Anim, setup: &Setup, k: u64, phase: Phase) -> Option<u64>
    requires frame { k < 2 ^ 32 }
    requires animation { IsTimed anim.now }
    requires phase { phase_as phase ≡ definition.phase_of setup.now anim.now k }
    ensures { result ≡ definition.active_time_of setup.now anim.now k }
{
    let elapsed = local_time(anim, setup, k) - delay(anim, setup);
    active_time_in(phase, anim.fill, elapsed, active_duration(anim, setup))
}
