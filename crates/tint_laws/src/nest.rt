// Laws of how flashes by tints nest.
ghost use Rattle.tint_laws.specs.NestLaws.{BadWindowsNest, FlashesNest};

/// A pixel that surely flashes by the wide kind does so by the own kind; one that surely flashes
/// does flash; one that flashes possibly does by each kind; and one that possibly flashes by the
/// own kind does so by the wide kind. A margin of the wide kind on the wrong side would be
/// refused.
pub fn flashes_nest()
    ensures { FlashesNest }
{}

/// Bad windows nest alike, from facts on the pixels of the viewport in the frames of the window.
pub fn bad_windows_nest()
    ensures { BadWindowsNest }
{}
