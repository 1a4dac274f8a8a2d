// Easing functions, as CSS Easing Functions Level 1 has them.

/// Where a step easing jumps: at the start or the end of each step, at neither end, or at both.
#[derive(Clone, Copy, Debug, PartialEq, Eq)]
pub enum Jump {
    Start,
    End,
    Neither,
    Both,
}

/// An easing function.
#[derive(Clone, Copy, Debug, PartialEq, Eq)]
pub enum Easing {
    /// The output is the input.
    Linear,
    /// From 1 to 1000 steps, at least 2 where they jump at neither end.
    Steps { count: u16, jump: Jump },
    /// A cubic Bézier curve from (0, 0) to (1, 1), whose two control points are in thousandths: each x from 0
    /// to 1000, each y from -4000 to 4000.
    Cubic { x1: u16, y1: i16, x2: u16, y2: i16 },
}
