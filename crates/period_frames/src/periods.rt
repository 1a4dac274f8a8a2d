// Periods up to the most frames that are looked at.
ghost use Rattle.std.specs.Prelude.{◌≡◌, ◌∷◌, []};
ghost use Rattle.std.specs.Option.{ForSome};
ghost use Rattle.anim_timing.specs.Timed.{IsTimed};
ghost use Rattle.period_frames.specs.Periods.{AreJoined, IsPeriodOrLong, IsShort, short_or_none};

use crate::cycles::{is_endless, term};
use crate::multiples::least_multiple;
use page_model::{Anim, Setup};

/// The most frames that are looked at.
pub(crate) const MOST: u32 = 100_000;

/// So many frames, or none where they are too many.
fn up_to_most(frames: u64) -> Option<u32>
    ensures { result ≡ short_or_none frames }
{
    if frames <= u64::from(MOST) {
        Some(frames as u32)
    } else {
        None
    }
}

/// The period of one animation, or none where it is too long: its term, or one frame where it isn't endless.
pub(crate) fn period_of(anim: &Anim, setup: &Setup) -> Option<u32>
    requires { IsTimed anim.now }
    ensures period { IsPeriodOrLong setup.now (anim.now ∷ []) result }
    ensures short { ForSome result IsShort }
{
    if is_endless(anim) {
        up_to_most(term(anim, setup))
    } else {
        Some(1)
    }
}

/// The least common multiple of two periods, or none where it is too long.
pub(crate) fn joined_periods(one: Option<u32>, other: Option<u32>) -> Option<u32>
    requires one { ForSome one IsShort }
    requires other { ForSome other IsShort }
    ensures joined { AreJoined one other result }
    ensures short { ForSome result IsShort }
{
    up_to_most(least_multiple(u64::from(one?), u64::from(other?)))
}
