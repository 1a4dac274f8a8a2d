// A page as it is judged: its layers, their paint order and the keyframe sets.
use crate::animation::Anim;
use crate::colour::Rgba;
use crate::keyframe::KeyframeSet;
use crate::list::List;

/// For each property that an animation may change, whether its winning declaration is important, so that no
/// animation changes it.
#[derive(Clone, Copy, Debug, PartialEq, Eq)]
pub struct Held {
    pub background: bool,
    pub opacity: bool,
    pub visibility: bool,
    pub left: bool,
    pub top: bool,
    pub width: bool,
    pub height: bool,
}

/// An element as it is painted: its declared values and its animations, the last of which wins.
///
/// Lengths are in hundredths of a pixel, opacity in thousandths. A body may have no colour and then paints
/// nothing; each box has one.
#[derive(Drop)]
pub struct Layer {
    pub colour: Option<Rgba>,
    pub opacity: u16,
    pub shown: bool,
    pub left: i32,
    pub top: i32,
    pub width: i32,
    pub height: i32,
    pub z: i32,
    pub important: Held,
    pub anims: List<Anim>,
}

/// The layers, the first of which is the body's; the numbers of the boxes in the order in which they are painted,
/// by z-index and then by number; and the keyframe sets that animations name by number.
#[derive(Drop)]
pub struct Scene {
    pub layers: List<Layer>,
    pub order: List<u16>,
    pub sets: List<KeyframeSet>,
}
