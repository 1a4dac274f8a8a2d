// What a run finds out, before it is told.
use crate::refusal::PageRefusal;
use flash_witness::WitnessFault;
use page_judge::Judgement;
use page_model::{Tint, Witness};

/// How light a colour is.
#[derive(Clone, Copy, Debug, PartialEq, Eq)]
pub struct Light {
    /// The linear light of its channels, each in parts of 2^32.
    pub red: u64,
    pub green: u64,
    pub blue: u64,
    /// Its relative luminance, in parts of 10000 * 2^32.
    pub luma: u64,
    /// Whether it is a saturated red.
    pub saturated: bool,
}

/// What the words, the files that they name and the judgement come to.
#[derive(Drop)]
pub enum Outcome {
    /// The words spell no command.
    WordsRefused,
    /// A file can't be read.
    ReadFault,
    /// The page is refused.
    Refused(PageRefusal),
    /// No window is bad, from the first frame on for ever; so many windows were looked at. `apart` tells whether each region was judged
    /// in the windows that it needs by itself.
    Pass { frames: u32, apart: bool },
    /// A window is bad.
    Fail(Witness),
    /// More than 100,000 windows would have to be looked at, and the regions can't be judged by themselves.
    TooManyFrames,
    /// Cells times frames are more than 4,194,304.
    TooMuchWork { cells: u32, frames: u32 },
    /// No window is surely bad, and this one is possibly bad: its first frame, and the upper left pixel of the rectangle.
    Enclosed { start: u32, x: i32, y: i32 },
    /// The file of the witness is too long, or the text of none.
    NoWitness,
    /// The witness isn't accepted.
    Unaccepted(WitnessFault),
    /// The witness is accepted: the first frame of its window, and its area in pixels.
    Accepted { start: u32, area: u32 },
    /// The tint of a pixel.
    Painted(Tint),
    /// How light a colour is.
    Lit(Light),
    /// What the page comes to that is made from this number.
    Shown { number: u32, judgement: Judgement },
    /// Memory was refused.
    NoMemory,
}
