// Keyframe sets.
use crate::easing::Easing;
use crate::list::List;
use crate::property::Setting;

/// A keyframe: its offset in hundredths of a percent from 0 to 10,000, its own easing where it has one, and its
/// values, at most one for a property.
#[derive(Drop)]
pub struct Keyframe {
    pub offset: u16,
    pub easing: Option<Easing>,
    pub values: List<Setting>,
}

/// The keyframes of an `@keyframes` rule, whose offsets strictly rise.
#[derive(Drop)]
pub struct KeyframeSet {
    pub frames: List<Keyframe>,
}
