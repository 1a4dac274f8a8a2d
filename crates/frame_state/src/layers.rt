// The state of a layer in a frame.
ghost use Rattle.std.specs.Prelude.{Some, IfSome, ◌≡◌, ◌^◌, ◌<◌, false, length, slice_get};
ghost use Rattle.page_model.specs.declared.scene.Layer.{Layer as Element};
ghost use Rattle.page_model.specs.Enclosure.{own, wide, IsLooseStateAt, LooseState};
ghost use Rattle.page_model.specs.LayerAt as definition;
ghost use Rattle.page_model.specs.ValidScene.{IsColour, IsValid};
ghost use Rattle.tint_laws.specs.TintLaws.{LooseStateWithin, StateWithin};
ghost use Rattle.frame_state.specs.Picked.{state_found};
ghost use Rattle.frame_state.specs.Places.{place_as, IsOwnPlace, IsPlaceInSlots};
ghost use Rattle.frame_state.specs.Scenes.{is_cubic};
ghost use Rattle.frame_state.specs.States.{state_as, states_as, known, IsInSlots, AreOwn, AreExact, AreInSlots};

use crate::place::{alpha_of, fill_of, place_of, shown_of};
use crate::types::{LayerState, Place};
use layer_ways::{Found, found_at};
use page_model::{Layer, Scene, Setup};

/// The state of a layer, by what was found of its properties.
fn state_of(layer: &Layer, found: &Found) -> LayerState
    requires { IfSome layer.now.colour IsColour }
    ensures { state_as result ≡ state_found layer.now found.now.edges found.now.look }
{
    let fill = fill_of(layer, &found.look);
    let place = place_of(layer, &found.edges);
    LayerState {
        shown: shown_of(layer, &found.look),
        r: fill.r,
        g: fill.g,
        b: fill.b,
        cover: fill.cover,
        alpha: alpha_of(layer, &found.look),
        left: place.left,
        top: place.top,
        width: place.width,
        height: place.height,
    }
}

/// The state of a layer in frame `k`: for each property the value of the last animation in the layer's list
/// that has an effect and names it, unless the winning declaration is important, and else the declared value;
/// rounded half up and held in its range. Each value is told by the least and the greatest that it may have, which
/// are the same where no curve eases it; a curve may leave open whether the layer is shown. A body without colour
/// is not shown.
///
/// CSS Animations Level 1, "Keyframes", and CSS Cascading and Inheritance Level 4, "Cascading Origins".
pub fn layer_at(scene: &Scene, setup: &Setup, k: u64, layer: u16) -> LayerState
    requires valid { IsValid scene.now }
    requires there { layer < length scene.now.layers }
    requires frame { k < 2 ^ 32 }
    ensures own { (l : Element) → slice_get scene.now.layers layer ≡ Some l
        → IsLooseStateAt own scene.now setup.now k l (state_as result) }
    ensures holds { (l : Element) (state : definition.State) → slice_get scene.now.layers layer ≡ Some l
        → definition.IsStateAt scene.now setup.now k l state → StateWithin (state_as result) state }
    ensures wide { (l : Element) (outer : LooseState) → slice_get scene.now.layers layer ≡ Some l
        → IsLooseStateAt wide scene.now setup.now k l outer → LooseStateWithin outer (state_as result) }
    ensures exact { is_cubic scene.now ≡ false → (l : Element) (state : definition.State)
        → slice_get scene.now.layers layer ≡ Some l
        → definition.IsStateAt scene.now setup.now k l state → state_as result ≡ known state }
    ensures ranges { IsInSlots (state_as result) }
{
    let element = &scene.layers.as_slice()[layer as usize];
    let found = found_at(scene, setup, k, layer, element.anims.as_slice(), true);
    state_of(element, &found)
}

/// Where a layer is in frame `k`: the four slots of its state that tell its box, and nothing else of it. An animation
/// that changes none of them costs next to nothing here.
pub fn place_at(scene: &Scene, setup: &Setup, k: u64, layer: u16) -> Place
    requires valid { IsValid scene.now }
    requires there { layer < length scene.now.layers }
    requires frame { k < 2 ^ 32 }
    ensures own { (l : Element) → slice_get scene.now.layers layer ≡ Some l
        → IsOwnPlace scene.now setup.now k l (place_as result) }
    ensures ranges { IsPlaceInSlots (place_as result) }
{
    let element = &scene.layers.as_slice()[layer as usize];
    let found = found_at(scene, setup, k, layer, element.anims.as_slice(), false);
    place_of(element, &found.edges)
}

/// The states of all layers in frame `k`, by number.
pub fn states_at(scene: &Scene, setup: &Setup, k: u64, out: &mut [LayerState])
    requires valid { IsValid scene.now }
    requires frame { k < 2 ^ 32 }
    requires room { length out.old ≡ length scene.now.layers }
    ensures own { AreOwn scene.now setup.now k (states_as out.new) }
    ensures exact { is_cubic scene.now ≡ false → AreExact scene.now setup.now k (states_as out.new) }
    ensures ranges { AreInSlots scene.now (states_as out.new) }
{
    for i in 0..out.len() {
        out[i] = layer_at(scene, setup, k, i as u16);
    }
}
