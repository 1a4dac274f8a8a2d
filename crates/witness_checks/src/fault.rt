// Why a witness isn't accepted.
ghost use Rattle.std.specs.Prelude.{◌≡◌};
ghost use Rattle.witness_checks.specs.Faults.{condition_of};

/// Why a witness isn't accepted: the first condition that fails. Parts are numbered from 0, turns from 0, and pixels are those of the viewport.
#[derive(Clone, Copy, Debug, PartialEq, Eq)]
pub enum WitnessFault {
    /// Width, height or a part of the rate isn't the setup's.
    OtherSetup,
    /// A part is empty, or doesn't lie wholly in the viewport and the rectangle.
    PartOutside {
        part: u32,
    },
    /// Two parts share a pixel.
    PartsOverlap {
        first: u32,
        second: u32,
    },
    /// The stated area isn't the sum of the parts' areas.
    WrongArea {
        stated: u32,
        found: u32,
    },
    /// The area isn't more than a quarter of the rectangle.
    SmallArea {
        area: u32,
    },
    /// The nine frames of a part don't rise strictly.
    FramesOrder {
        part: u32,
    },
    /// A frame of a part doesn't lie in the window.
    FramesOutside {
        part: u32,
    },
    /// In a turn of a part, a pixel's tint isn't the stated one.
    WrongTint {
        part: u32,
        turn: u32,
        x: u32,
        y: u32,
    },
    /// The stated tints of a part don't change surely and in turn; at this turn, from 1 to 8, they cease to.
    NotChange {
        part: u32,
        turn: u32,
    },
}

impl WitnessFault {
    /// The number of the condition that fails, from 1 to 9.
    pub fn condition(&self) -> u8
        ensures { result ≡ condition_of self.now }
    {
        match self {
            WitnessFault::OtherSetup => 1,
            WitnessFault::PartOutside { .. } => 2,
            WitnessFault::PartsOverlap { .. } => 3,
            WitnessFault::WrongArea { .. } => 4,
            WitnessFault::SmallArea { .. } => 5,
            WitnessFault::FramesOrder { .. } => 6,
            WitnessFault::FramesOutside { .. } => 7,
            WitnessFault::WrongTint { .. } => 8,
            WitnessFault::NotChange { .. } => 9,
        }
    }
}
