// An item of the shorthand.
use page_model::{Count, Direction, Easing, Fill, Name};

/// An item of the shorthand, with initial values where it has no word.
#[derive(Drop)]
pub struct Shorthand {
    pub name: Option<Name>,
    pub duration: u32,
    pub easing: Easing,
    pub delay: i32,
    pub count: Count,
    pub direction: Direction,
    pub fill: Fill,
    pub paused: bool,
}
