// The stops of one property: the keyframes that name it.
ghost use Rattle.std.specs.Prelude.{◌≡◌, is_some, option_map};
ghost use Rattle.std.specs.List.{list_any};
ghost use Rattle.page_model.specs.Keyframes as definition;
ghost use Rattle.keyframe_sets.specs.Views.{stop_as, share_as};

use crate::share::Share;
use page_model::{Easing, Keyframe, KeyframeSet, Prop, Setting, Value};

/// A stop: its offset in hundredths of a percent, its value, and the easing from there on where it has its own.
#[derive(Clone, Copy)]
pub struct Stop {
    pub offset: u16,
    pub value: Value,
    pub easing: Option<Easing>,
}

/// A number for each property, by which two are compared.
pub fn number_of(prop: Prop) -> u8
    ensures { result ≡ definition.number_of prop }
{
    match prop {
        Prop::Background => 0,
        Prop::Opacity => 1,
        Prop::Visibility => 2,
        Prop::Left => 3,
        Prop::Top => 4,
        Prop::Width => 5,
        Prop::Height => 6,
    }
}

/// Whether two properties are one.
fn is_same(first: Prop, second: Prop) -> bool
    ensures { result ≡ definition.is_same first second }
{
    number_of(first) == number_of(second)
}

/// The value of a property among some settings.
fn value_in(prop: Prop, values: &[Setting]) -> Option<Value>
    ensures { result ≡ definition.value_in prop values.now }
{
    values
        .iter()
        .find(|setting| is_same(setting.prop, prop))
        .map(|setting| setting.value)
}

/// The stop of a property at a keyframe that names it.
pub fn stop_of(prop: Prop, frame: &Keyframe) -> Option<Stop>
    ensures { option_map stop_as result ≡ definition.stop_of prop frame.now }
{
    match value_in(prop, frame.values.as_slice()) {
        Some(value) => Some(Stop {
            offset: frame.offset,
            value,
            easing: frame.easing,
        }),
        None => None,
    }
}

/// Whether a progress has reached a stop, which isn't the one at 100%.
pub fn is_reached(at: Share, stop: Stop) -> bool
    ensures { result ≡ definition.is_reached (share_as at) (stop_as stop) }
{
    stop.offset < 10000 && stop.offset as u64 * at.den <= 10000 * at.num
}

/// Whether a keyframe names a property.
fn has_stop(prop: Prop, frame: &Keyframe) -> bool
    ensures { result ≡ is_some (definition.stop_of prop frame.now) }
{
    stop_of(prop, frame).is_some()
}

/// Whether one of some keyframes names it.
fn some_names(prop: Prop, frames: &[Keyframe]) -> bool
    ensures { result ≡ list_any (λ frame. is_some (definition.stop_of prop frame)) frames.now }
{
    frames.iter().any(|frame| has_stop(prop, frame))
}

/// Whether a set names a property: whether a keyframe of it has a value of the property.
pub fn names(set: &KeyframeSet, prop: Prop) -> bool
    ensures { result ≡ definition.names prop set.now.frames }
{
    some_names(prop, set.frames.as_slice())
}
