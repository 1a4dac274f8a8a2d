// States and colours of small pages.
ghost use Rattle.page_values.specs.AlphaValues.{AlphaValues};
ghost use Rattle.page_values.specs.SceneValues.{HalfBox, SlidingBox, LampStates};

/// A half transparent box at a half pixel, over a white canvas. It refuses a canvas that is black, a right edge that is
/// covered, and rounding away from zero.
pub fn half_box()
    ensures { HalfBox }
{}

/// A box that slides by a pixel. It refuses a definition by which a missing start is 0.
pub fn sliding_box()
    ensures { SlidingBox }
{}

/// The grey of an animated body. It refuses a definition by which an animation beats what is important.
pub fn lamp_states()
    ensures { LampStates }
{}

/// Channels and covers between colours with alpha, and red over white by its cover. It refuses channels that don't go by the
/// premultiplied colours, and a channel that is kept where the alpha is gone.
pub fn alpha_values()
    ensures { AlphaValues }
{}
