// Laws of light: rises and falls, saturated red, and the luminance of white.
ghost use Rattle.flash_laws.specs.LightLaws.{BlackIsNotRed, RedReadsBackwards, RiseAndFallExclude, WhiteIsBrightest};
ghost use Rattle.flash_laws.specs.WrongLight.{FarOneWayBreaks, MostlyRedBreaks, RiseAnywhereBreaks};

/// No change is both a rise and a fall, no colour rises to itself, and none rises from 0.8 of
/// white's luminance on. A rise that asks for no least distance would be refused: by it, colours
/// that stay would flash.
pub fn rise_and_fall_exclude()
    ensures { RiseAndFallExclude }
{}

/// A rise from any luminance breaks that law.
pub fn rise_anywhere_breaks()
    ensures { RiseAnywhereBreaks }
{}

/// Black has white's chromaticity and is not saturated, and no grey is. A test of saturation that
/// is met where there is no light at all would be refused.
pub fn black_is_not_red()
    ensures { BlackIsNotRed }
{}

/// Such a test breaks that law.
pub fn mostly_red_breaks()
    ensures { MostlyRedBreaks }
{}

/// A change into red read backwards is one out of red, and black turning red is one. A distance
/// that counts in one direction alone would be refused, and so would a threshold that no colours
/// pass.
pub fn red_reads_backwards()
    ensures { RedReadsBackwards }
{}

/// A distance that counts in one direction alone breaks that law.
pub fn far_one_way_breaks()
    ensures { FarOneWayBreaks }
{}

/// White has the luminance 10000 * 2^32, no colour has more, and each channel adds to it. Weights
/// that sum to less or more, or that leave a channel out, would be refused.
pub fn white_is_brightest()
    ensures { WhiteIsBrightest }
{}
