// The interval that a property is in.
use fix_span::Frac;
use page_model::{Easing, Value};

/// A value on its way to another: by an easing, at a distance from 0 to 1.
#[derive(Clone, Copy, Debug, PartialEq, Eq)]
pub struct Interval {
    pub from: Value,
    pub to: Value,
    pub easing: Easing,
    pub distance: Frac,
}
