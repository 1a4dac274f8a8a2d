// Laws of flashes, flags and bad windows.
ghost use Rattle.flash_laws.specs.FlagLaws.{FlagsCarryOver, BadnessGrows};
ghost use Rattle.flash_laws.specs.FlashLaws.{FlashesNeedNineFrames};
ghost use Rattle.flash_laws.specs.WrongFlashes.{FlashesByHalvesBreak};

/// Where each change of one painting's pixels, between frames of a window, is a change of
/// another's, what the one flags the other does, a bad window of the one is one of the other, and
/// if the other is safe the one is. A definition that asks anywhere for a change not to be, as for
/// a still frame between two changes, would be refused.
pub fn flags_carry_over()
    ensures { FlagsCarryOver }
{}

/// A bad window stays bad where the viewport grows, at the same position. A count against a
/// quarter of the viewport, in place of a quarter of the rectangle, would be refused.
pub fn badness_grows()
    ensures { BadnessGrows }
{}

/// More than three flashes take nine frames, and nine of black and white in turn are enough. A
/// chain of eight frames or of ten would be refused.
pub fn flashes_need_nine_frames()
    ensures { FlashesNeedNineFrames }
{}

/// Chains of eight frames, of seven changes, break that law.
pub fn flashes_by_halves_break()
    ensures { FlashesByHalvesBreak }
{}
