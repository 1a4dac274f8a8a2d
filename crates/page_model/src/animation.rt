// Animations of an element: CSS Animations Level 1.
use crate::easing::Easing;

/// How often an animation runs.
#[derive(Clone, Copy, Debug, PartialEq, Eq)]
pub enum Count {
    /// Thousandths of an iteration, from 0 to 10,000,000.
    Times(u32),
    /// For ever.
    Infinite,
}

/// Which way the iterations run.
#[derive(Clone, Copy, Debug, PartialEq, Eq)]
pub enum Direction {
    Normal,
    Reverse,
    Alternate,
    AlternateReverse,
}

/// Where an animation has an effect outside its active time. `Absent` is the keyword `none`.
#[derive(Clone, Copy, Debug, PartialEq, Eq)]
pub enum Fill {
    Absent,
    Forwards,
    Backwards,
    Both,
}

/// An animation: the number of its keyframe set, its duration from 0 to 100,000 ms and its delay from -100,000
/// to 100,000 ms, and how it runs. `easing` is that of the keyframes that have none of their own.
#[derive(Clone, Copy, Debug, PartialEq, Eq)]
pub struct Anim {
    pub set: u32,
    pub duration: u32,
    pub delay: i32,
    pub count: Count,
    pub direction: Direction,
    pub fill: Fill,
    pub easing: Easing,
    pub paused: bool,
}
