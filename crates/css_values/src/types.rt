// The properties of the profile.

/// A property that a style text may name: its name is that of the variant, in lower case with `-` between words.
#[derive(Clone, Copy, Debug, PartialEq, Eq)]
pub enum Property {
    Position,
    Left,
    Top,
    Width,
    Height,
    BackgroundColor,
    Background,
    Opacity,
    Visibility,
    ZIndex,
    Margin,
    Padding,
    AnimationName,
    AnimationDuration,
    AnimationDelay,
    AnimationTimingFunction,
    AnimationIterationCount,
    AnimationDirection,
    AnimationFillMode,
    AnimationPlayState,
    Animation,
}
