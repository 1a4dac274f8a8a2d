// What shows that a window is bad.
use crate::colour::Tint;
use crate::list::List;

/// The kind of a flash.
#[derive(Clone, Copy, Debug, PartialEq, Eq)]
pub enum Kind {
    /// Opposing changes of relative luminance.
    General,
    /// Opposing changes into and out of saturated red.
    Red,
}

/// A window that is bad: its first frame, and the upper left pixel of the rectangle.
#[derive(Clone, Copy, Debug, PartialEq, Eq)]
pub struct BadWindow {
    pub start: u32,
    pub x: i32,
    pub y: i32,
}

/// Pixels of a rectangle that flash alike: place and size in whole pixels, nine frames in rising
/// order, and the tint of each pixel in each of them.
#[derive(Clone, Copy, Debug)]
pub struct Part {
    pub x: u16,
    pub y: u16,
    pub width: u16,
    pub height: u16,
    pub kind: Kind,
    pub frames: [u32; 9],
    pub tints: [Tint; 9],
}

/// A stated bad window: the setup, with `rate` frames in `per` seconds, the first frame, the upper
/// left pixel of the 341 by 256 rectangle, the number of flashing pixels in it, and the parts that
/// hold them.
#[derive(Drop)]
pub struct Witness {
    pub width: u16,
    pub height: u16,
    pub rate: u32,
    pub per: u32,
    pub start: u32,
    pub x: i32,
    pub y: i32,
    pub area: u32,
    pub parts: List<Part>,
}
