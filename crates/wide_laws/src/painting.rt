// What is painted.
ghost use Rattle.wide_laws.specs.PaintLaws.{BlendEnds, BlendGrows, PixelIsColour};

/// Each pixel has a colour with channels from 0 to 255, by any run of exact states. Blending that adds the source to the whole
/// backdrop is refused.
pub fn pixel_is_colour()
    ensures { PixelIsColour }
{}

/// Alpha 255 gives the source and alpha 0 the backdrop. Blending in 256ths is refused.
pub fn blend_ends()
    ensures { BlendEnds }
{}

/// A lighter source over a lighter backdrop is not darker. Blending whose product wraps at 256 is refused.
pub fn blend_grows()
    ensures { BlendGrows }
{}
