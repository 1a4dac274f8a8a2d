// Laws of tints.
ghost use Rattle.tint_laws.specs.AlikeLaws.{AlikePixelsHaveOneTint};
ghost use Rattle.tint_laws.specs.TintLaws.{TintsHoldColours, TintsHoldTints};

/// The exact colour of a pixel lies in its tint, where the exact states of the layers lie in the
/// loose ones. A blend over the lower ends of source, alpha and backdrop alone, a box that surely
/// covers up to its greatest right edge, or one that is painted where it may be hidden, would be
/// refused.
pub fn tints_hold_colours()
    ensures { TintsHoldColours }
{}

/// The tint by some loose states lies in that by looser ones. A tint that isn't monotone in what is
/// known, as one that leaves out a box of which it isn't known whether it is shown, would be
/// refused.
pub fn tints_hold_tints()
    ensures { TintsHoldTints }
{}

/// Two pixels that each box covers alike have one tint, by the same states. A tint that depends on
/// where the pixel lies in a box, as with a gradient, would be refused.
pub fn alike_pixels_have_one_tint()
    ensures { AlikePixelsHaveOneTint }
{}
