// What a sweep answers.
use page_model::{BadWindow, NoMemory};

/// Why a scene isn't decided.
#[derive(Clone, Copy, Debug, PartialEq, Eq)]
pub enum Reason {
    /// More than 100,000 windows would have to be looked at.
    Frames,
    /// Cells times frames are more than 4,194,304.
    Work { cells: u32, frames: u32 },
    /// No window is surely bad, and this one is possibly bad: its first frame, and the upper left pixel of the
    /// rectangle.
    Enclosure { start: u32, x: i32, y: i32 },
}

/// The verdict of a scene.
#[derive(Clone, Copy, Debug, PartialEq, Eq)]
pub enum Verdict {
    /// The scene is safe. So many windows were looked at; `apart` tells whether regions were judged by periods of
    /// their own.
    Pass { frames: u32, apart: bool },
    /// This window is bad.
    Fail(BadWindow),
    /// Neither can be said.
    Undecided(Reason),
}

/// Why a scene can't be judged.
#[derive(Clone, Copy, Debug, PartialEq, Eq)]
pub enum OpenFault {
    /// More than 100,000 windows would have to be looked at, and the regions can't be judged by themselves.
    Frames,
    /// Cells times frames are more than 4,194,304.
    Work { cells: u32, frames: u32 },
    /// Memory was refused.
    NoMemory,
}

impl From<NoMemory> for OpenFault {
    ghost use Rattle.std.specs.Prelude.{◌≡◌};
    ghost use Rattle.sweep.specs.declared.types.OpenFault.TheVariants.{NoMemory as Refused};

    ghost from_gives = { λ _ fault. fault ≡ Refused };

    fn from(_: NoMemory) -> Self {
        OpenFault::NoMemory
    }
}
