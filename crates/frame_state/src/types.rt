// The state of a layer, and where it is.
use fix_span::Loose;
use layer_ways::Shown;

/// A layer in a frame, each number between its ends: the channels and the cover of its colour and the alpha of
/// its opacity from 0 to 255, and its box in whole pixels.
#[derive(Clone, Copy, Debug, PartialEq, Eq)]
pub struct LayerState {
    pub shown: Shown,
    pub r: Loose,
    pub g: Loose,
    pub b: Loose,
    pub cover: Loose,
    pub alpha: Loose,
    pub left: Loose,
    pub top: Loose,
    pub width: Loose,
    pub height: Loose,
}

/// No length, no colour and no alpha.
const ZERO: Loose = Loose { lo: 0, hi: 0 };

/// The state of nothing: not shown, and each value 0.
pub const NOTHING: LayerState = LayerState {
    shown: Shown::No,
    r: ZERO,
    g: ZERO,
    b: ZERO,
    cover: ZERO,
    alpha: ZERO,
    left: ZERO,
    top: ZERO,
    width: ZERO,
    height: ZERO,
};

/// Where a layer is in a frame, each number between its ends: its box in whole pixels.
#[derive(Clone, Copy, Debug, PartialEq, Eq)]
pub struct Place {
    pub left: Loose,
    pub top: Loose,
    pub width: Loose,
    pub height: Loose,
}
