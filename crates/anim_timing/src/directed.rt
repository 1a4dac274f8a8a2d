// The directed progress of an animation at a frame.
ghost use Rattle.std.specs.Prelude.{◌≡◌, pos, ◌^◌, ◌<◌, ◌≤◌, ◌≤ℤ◌, IfSome, option_map};
ghost use Rattle.page_model.specs.Progress as definition;
ghost use Rattle.fix_span.specs.Frac.{frac_of, IsShare};
ghost use Rattle.anim_timing.specs.Iterations.{ratio_as};
ghost use Rattle.anim_timing.specs.Timed.{IsTimed};
ghost use Rattle.anim_timing.specs.Views.{phase_as};

use crate::iterations::{
    current_turn, directed, is_at_end, overall_progress, remainder_of, runs_backwards,
    simple_progress,
};
use crate::phases::{Phase, active_time, phase_at};
use crate::ratio::Ratio;
use crate::times::{active_duration, duration};
use fix_span::Frac;
use page_model::{Anim, Setup};

/// The directed progress of an animation at frame `k`, which is shown `1000 k den / num` ms after the start: how far
/// it is between its first and its last keyframe, as a fraction from 0 to 1 whose denominator is positive and at
/// most 24,000,000,000. `None` exactly where the animation has no effect.
///
/// Web Animations Level 1, from "Phases and states" to "Calculating the directed progress".
pub fn progress(anim: &Anim, setup: &Setup, k: u64) -> Option<Frac>
    requires frame { k < 2 ^ 32 }
    requires animation { IsTimed anim.now }
    ensures value { result ≡ option_map frac_of (definition.progress_of setup.now anim.now k) }
    ensures share { IfSome result IsShare }
    ensures denominator { IfSome result (λ x. x.den ≤ℤ pos 24000000000) }
{
    let phase = phase_at(anim, setup, k);
    match active_time(anim, setup, k, phase) {
        Some(time) => Some(progress_in(anim, setup, phase, time).to_frac()),
        None => None,
    }
}

/// The directed progress, from the phase and the active time.
fn progress_in(anim: &Anim, setup: &Setup, phase: Phase, time: u64) -> Ratio
    requires { IsTimed anim.now }
    ensures value { ratio_as result ≡ definition.progress_in setup.now anim.now (phase_as phase) time }
    ensures at_most_one { result.num ≤ result.den }
{
    let overall = overall_progress(phase, anim.count, duration(anim, setup), time);
    let at_end = is_at_end(phase, anim.count, time, active_duration(anim, setup));
    let simple = simple_progress(remainder_of(overall), at_end);
    let turn = current_turn(phase, anim.count, overall, simple);
    directed(runs_backwards(anim.direction, turn), simple)
}
