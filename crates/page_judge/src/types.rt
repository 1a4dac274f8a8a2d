// What a scene comes to.
use page_model::Witness;

/// What a scene comes to at a setup.
#[derive(Drop)]
pub enum Judgement {
    /// No window is bad, from the first frame on for ever; so many windows were looked at. `apart` tells whether each region was judged
    /// in the windows that it needs by itself.
    Pass { frames: u32, apart: bool },
    /// A window is bad.
    Fail(Witness),
    /// More than 100,000 windows would have to be looked at, and the regions can't be judged by themselves.
    Frames,
    /// Cells times frames are more than 4,194,304.
    Work { cells: u32, frames: u32 },
    /// No window is surely bad, and this one is the first that is possibly bad: its first frame, and the upper left pixel of the
    /// rectangle.
    Enclosure { start: u32, x: i32, y: i32 },
}
