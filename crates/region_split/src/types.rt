// Rectangles of pixels, and why a scene isn't cut.
use page_model::NoMemory;

/// A rectangle of the viewport: the column and the row of its upper left pixel, and its size, in
/// pixels.
#[derive(Clone, Copy, Debug, PartialEq, Eq)]
pub struct Rect {
    pub x: u16,
    pub y: u16,
    pub width: u16,
    pub height: u16,
}

/// Why a scene isn't cut into cells.
#[derive(Clone, Copy, Debug, PartialEq, Eq)]
pub enum CutFault {
    /// There are so many cells, and times the frames they are more than 4,194,304.
    Work { cells: u32 },
    /// Memory was refused.
    NoMemory,
}

impl From<NoMemory> for CutFault {
    ghost use Rattle.std.specs.Prelude.{◌≡◌};
    ghost use Rattle.region_split.specs.declared.types.CutFault.TheVariants.{NoMemory as Refused};

    ghost from_gives = { λ _ fault. fault ≡ Refused };

    fn from(_: NoMemory) -> Self {
        CutFault::NoMemory
    }
}
