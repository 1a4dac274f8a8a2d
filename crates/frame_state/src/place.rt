// Where a layer is and how it looks, by what was found of its properties.
ghost use Rattle.std.specs.Prelude.{◌≡◌, ◌<◌, IfSome, option_map};
ghost use Rattle.page_model.specs.ValidScene.{IsColour};
ghost use Rattle.slot_values.specs.Slots.{loose_as, slot_as};
ghost use Rattle.layer_ways.specs.Found.{edge_as, fill_as, pixels_by};
ghost use Rattle.layer_ways.specs.Ways.{stays, sureness_of};
ghost use Rattle.frame_state.specs.Picked as definition;
ghost use Rattle.frame_state.specs.Picked.{pick};
ghost use Rattle.frame_state.specs.Places.{place_as};

use crate::types::Place;
use fix_span::Loose;
use keyframe_sets::declared;
use layer_ways::{Edges, Fill, Look, Shown, alpha_still, fill_still, pixels_still, shown_still};
use page_model::{Layer, Prop, Rgba, Value};
use slot_values::{EXTENT, POSITION, Slot};

/// A length of a box: what was found, unless its declaration is important, and else its own.
fn pixels_of(slot: Slot, held: bool, own: Value, found: Option<Loose>) -> Loose
    requires { 0 < slot.unit }
    ensures { loose_as result ≡ pick held (pixels_by (slot_as slot) (stays own)) (edge_as found) }
{
    if held {
        return pixels_still(slot, own);
    }
    match found {
        Some(pixels) => pixels,
        None => pixels_still(slot, own),
    }
}

/// Where a layer is.
pub fn place_of(layer: &Layer, edges: &Edges) -> Place
    ensures { place_as result ≡ definition.place_found layer.now edges.now }
{
    let held = layer.important;
    Place {
        left: pixels_of(POSITION, held.left, declared(layer, Prop::Left), edges.left),
        top: pixels_of(POSITION, held.top, declared(layer, Prop::Top), edges.top),
        width: pixels_of(
            EXTENT,
            held.width,
            declared(layer, Prop::Width),
            edges.width,
        ),
        height: pixels_of(
            EXTENT,
            held.height,
            declared(layer, Prop::Height),
            edges.height,
        ),
    }
}

/// The colour of a layer.
pub fn fill_of(layer: &Layer, look: &Look) -> Fill
    requires { IfSome layer.now.colour IsColour }
    ensures { fill_as result ≡ definition.fill_found layer.now look.now }
{
    let own = declared(layer, Prop::Background);
    if layer.important.background {
        return fill_still(own);
    }
    match look.fill {
        Some(fill) => fill,
        None => fill_still(own),
    }
}

/// The alpha of its opacity.
pub fn alpha_of(layer: &Layer, look: &Look) -> Loose
    ensures { loose_as result ≡ definition.alpha_found layer.now look.now }
{
    let own = declared(layer, Prop::Opacity);
    if layer.important.opacity {
        return alpha_still(own);
    }
    match look.alpha {
        Some(alpha) => alpha,
        None => alpha_still(own),
    }
}

/// How surely a box is shown.
fn visible(layer: &Layer, look: &Look) -> Shown
    ensures { sureness_of result ≡ definition.visible_found layer.now look.now }
{
    let own = declared(layer, Prop::Visibility);
    if layer.important.visibility {
        return shown_still(own);
    }
    match look.shown {
        Some(shown) => shown,
        None => shown_still(own),
    }
}

/// How surely a layer with a colour, or without one, is shown.
pub fn shown_of(layer: &Layer, look: &Look) -> Shown
    ensures { sureness_of result ≡ definition.shown_found layer.now look.now }
{
    match layer.colour {
        Some(_) => visible(layer, look),
        None => Shown::No,
    }
}
