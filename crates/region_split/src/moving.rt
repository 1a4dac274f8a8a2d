// Which layers may move or grow, and until when they do something new.
ghost use Rattle.std.specs.Prelude.{Some, false, ◌≡◌, ◌<◌, ◌≤◌, length, slice_get};
ghost use Rattle.std.specs.List.{list_any};
ghost use Rattle.page_model.specs.declared.scene.Layer.{Layer as Element};
ghost use Rattle.page_model.specs.ValidScene.{IsValid};
ghost use Rattle.region_split.specs.Marks.{AreEnoughFrames};
ghost use Rattle.region_split.specs.Moving as definition;

use keyframe_sets::names;
use page_model::{Anim, KeyframeSet, Prop, Scene, Setup};
use period_frames::needed_of_layer;

/// Whether a set names a place or a size.
fn names_edge(set: &KeyframeSet) -> bool
    ensures { result ≡ definition.names_edge set.now }
{
    names(set, Prop::Left)
        || names(set, Prop::Top)
        || names(set, Prop::Width)
        || names(set, Prop::Height)
}

/// Whether the set of an animation does.
fn moves(sets: &[KeyframeSet], anim: &Anim) -> bool
    ensures { result ≡ definition.moves sets.now anim.now }
{
    match sets.get(anim.set as usize) {
        Some(set) => names_edge(set),
        None => false,
    }
}

/// Whether the set of some animation does.
fn some_moves(sets: &[KeyframeSet], anims: &[Anim]) -> bool
    ensures { result ≡ list_any (definition.moves sets.now) anims.now }
{
    anims.iter().any(|anim| moves(sets, anim))
}

/// Whether a layer may move or grow, as the set of one of its animations names a place or a size. One that may not is
/// in each frame where it is in any other.
pub fn may_move(scene: &Scene, number: u16) -> bool
    requires { number < length scene.now.layers }
    ensures value { (l : Element) → slice_get scene.now.layers number ≡ Some l
        → result ≡ definition.may_move scene.now.sets l }
    ensures stays { (l : Element) → slice_get scene.now.layers number ≡ Some l → result ≡ false
        → definition.StaysPut scene.now l }
{
    let layer = &scene.layers.as_slice()[usize::from(number)];
    some_moves(scene.sets.as_slice(), layer.anims.as_slice())
}

/// How many of so many frames are enough for a layer: behind them it does what it does in one of them.
pub fn frames_of(scene: &Scene, setup: &Setup, number: u16, frames: u32) -> u32
    requires valid { IsValid scene.now }
    requires there { number < length scene.now.layers }
    ensures few { result ≤ frames }
    ensures enough { (l : Element) → slice_get scene.now.layers number ≡ Some l
        → AreEnoughFrames scene.now setup.now l frames result }
{
    match needed_of_layer(scene, setup, number) {
        Some(horizon) => frames.min(horizon.settled + horizon.period),
        None => frames,
    }
}
