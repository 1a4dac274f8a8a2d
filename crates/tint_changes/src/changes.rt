// The changes between two tints of which chains are made.
ghost use Rattle.std.specs.Prelude.{◌≡◌, ◌<◌, ◌↔◌, IsTrue, length};
ghost use Rattle.tint_changes.specs.Counting.{Makes, MakesAt};

use page_model::Tint;
use red_chroma::{into_possible, into_sure, out_possible, out_sure};
use srgb_luma::{fall_possible, fall_sure, rise_possible, rise_sure};

/// A change that two tints may make.
#[derive(Clone, Copy, Debug, PartialEq, Eq)]
pub enum Change {
    PossibleRise,
    PossibleFall,
    SureRise,
    SureFall,
    PossiblyIntoRed,
    PossiblyOutOfRed,
    SurelyIntoRed,
    SurelyOutOfRed,
}

/// Two opposing changes, and which of them comes first.
#[derive(Clone, Copy)]
pub struct Opposing {
    pub first: Change,
    pub second: Change,
}

impl Opposing {
    /// The same two, the other one first.
    pub fn turned(self) -> Opposing
        ensures first { result.first ≡ self.second }
        ensures second { result.second ≡ self.first }
    {
        Opposing {
            first: self.second,
            second: self.first,
        }
    }
}

/// The changes of luminance that all colours of two tints make.
pub const SURE: Opposing = Opposing {
    first: Change::SureRise,
    second: Change::SureFall,
};

/// The changes of red that all colours of two tints make.
pub const SURE_RED: Opposing = Opposing {
    first: Change::SurelyIntoRed,
    second: Change::SurelyOutOfRed,
};

impl Change {
    /// Whether two tints make the change.
    pub fn is_made(self, from: Tint, to: Tint) -> bool
        ensures { IsTrue result ↔ Makes self from to }
    {
        match self {
            Change::PossibleRise => rise_possible(from, to),
            Change::PossibleFall => fall_possible(from, to),
            Change::SureRise => rise_sure(from, to),
            Change::SureFall => fall_sure(from, to),
            Change::PossiblyIntoRed => into_possible(from, to),
            Change::PossiblyOutOfRed => out_possible(from, to),
            Change::SurelyIntoRed => into_sure(from, to),
            Change::SurelyOutOfRed => out_sure(from, to),
        }
    }

    /// Whether the tints at two places make the change.
    pub fn is_made_at(self, tints: &[Tint], earlier: usize, later: usize) -> bool
        requires earlier { earlier < length tints.now }
        requires later { later < length tints.now }
        ensures { IsTrue result ↔ MakesAt self tints.now earlier later }
    {
        self.is_made(tints[earlier], tints[later])
    }
}
