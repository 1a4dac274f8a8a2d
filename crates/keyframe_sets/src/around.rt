// The two stops between which a progress lies.
ghost use Rattle.std.specs.Prelude.{List, ◌≡◌, ◌∷◌, ◌++◌, [], ◌≤◌, All, length, nat_lt};
ghost use Rattle.std.specs.List.{cons_option};
ghost use Rattle.page_model.specs.Keyframes as definition;
ghost use Rattle.keyframe_sets.specs.Around.{IsAround, IsInside, AreApart};
ghost use Rattle.keyframe_sets.specs.Views.{stop_as, share_as};

use crate::share::Share;
use crate::stops::{Stop, is_reached, stop_of};
use page_model::{Keyframe, Prop};

/// The last stop that a progress has reached, and the first that it hasn't.
#[derive(Clone, Copy)]
pub struct Around {
    pub reached: Option<Stop>,
    pub ahead: Option<Stop>,
}

/// With one more stop behind those that were seen.
fn with_stop(around: Around, stop: Stop, at: Share) -> Around
    requires apart { AreApart (share_as at) around }
    requires inside { IsInside stop }
    ensures around { (seen : List definition.Stop) → IsAround (share_as at) seen around
        → IsAround (share_as at) (seen ++ stop_as stop ∷ []) result }
    ensures apart { AreApart (share_as at) result }
{
    if is_reached(at, stop) {
        Around {
            reached: Some(stop),
            ahead: around.ahead,
        }
    } else {
        Around {
            reached: around.reached,
            ahead: Some(around.ahead.unwrap_or(stop)),
        }
    }
}

/// With one more keyframe, which may not name the property.
fn with_frame(around: Around, prop: Prop, frame: &Keyframe, at: Share) -> Around
    requires apart { AreApart (share_as at) around }
    requires inside { frame.now.offset ≤ 10000 }
    ensures around { (seen : List definition.Stop) → IsAround (share_as at) seen around
        → IsAround (share_as at) (seen ++ cons_option (definition.stop_of prop frame.now) []) result }
    ensures apart { AreApart (share_as at) result }
{
    match stop_of(prop, frame) {
        Some(stop) => with_stop(around, stop, at),
        None => around,
    }
}

/// Those of a property among some keyframes.
pub fn stops_around(frames: &[Keyframe], prop: Prop, at: Share) -> Around
    requires { All (λ frame. frame.offset ≤ 10000) frames.now }
    ensures around { IsAround (share_as at) (definition.stops_of prop frames.now) result }
    ensures apart { AreApart (share_as at) result }
{
    let mut around = Around {
        reached: None,
        ahead: None,
    };
    for frame in frames {
        around = with_frame(around, prop, frame, at);
    }
    around
}

/// Whether there is a stop at all.
pub fn has_stops(around: Around) -> bool
    ensures { (at : _) (stops : List definition.Stop) → IsAround at stops around
        → result ≡ nat_lt 0 (length stops) }
{
    around.reached.is_some() || around.ahead.is_some()
}
