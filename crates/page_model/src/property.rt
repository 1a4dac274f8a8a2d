// The properties that an animation may change, and their values.
use crate::colour::Rgba;

/// A property that keyframes may name.
#[derive(Clone, Copy, Debug, PartialEq, Eq)]
pub enum Prop {
    Background,
    Opacity,
    Visibility,
    Left,
    Top,
    Width,
    Height,
}

/// A value of such a property.
#[derive(Clone, Copy, Debug, PartialEq, Eq)]
pub enum Value {
    /// A colour with its alpha, of `Background`.
    Colour(Rgba),
    /// Thousandths from 0 to 1000, of `Opacity`.
    Opacity(u16),
    /// Whether the box is visible, of `Visibility`.
    Shown(bool),
    /// Hundredths of a pixel, of `Left`, `Top`, `Width` and `Height`.
    Length(i32),
}

/// A property with the value that it is set to.
#[derive(Clone, Copy, Debug, PartialEq, Eq)]
pub struct Setting {
    pub prop: Prop,
    pub value: Value,
}
