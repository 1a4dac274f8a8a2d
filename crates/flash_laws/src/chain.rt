// A law of chains of opposing changes, over anything that is seen.
ghost use Rattle.flash_laws.specs.ChainLaws.{ChainsCarryOver};

/// Something that is seen in each frame, and two opposing sorts of changes of it.
pub trait Changing {
    /// The one sort of changes.
    ghost up: { Self → Self → Type 0 };
    /// The other sort.
    ghost down: { Self → Self → Type 0 };
}

/// A chain carries over wherever its changes do, in the frames of its window alone: from anything
/// that is seen to anything else, by any sorts of changes.
pub fn chains_carry_over<C: Changing, D: Changing>()
    ensures { ChainsCarryOver C.up C.down D.up D.down }
{}
