// What the animations of a layer make of its properties in a frame, each by the last that has an effect and names it.
ghost use Rattle.std.specs.Prelude.{None, Some, true, false, not, is_some, ◌&&◌, ◌||◌, length, ◌≡◌, ◌^◌, ◌<◌, ◌≤◌, All, slice_get, option_map};
ghost use Rattle.page_model.specs.declared.property.Prop.{Prop as Property};
ghost use Rattle.page_model.specs.declared.property.Prop.TheVariants.{Background, Opacity, Visibility};
ghost use Rattle.page_model.specs.declared.scene.Layer.{Layer as Element};
ghost use Rattle.page_model.specs.ValidScene.{IsValid};
ghost use Rattle.fix_span.specs.Frac.{fraction_of};
ghost use Rattle.anim_timing.specs.Timed.{IsTimed};
ghost use Rattle.keyframe_sets.specs.Here.{interval_here};
ghost use Rattle.slot_values.specs.Slots.{slot_as};
ghost use Rattle.layer_ways.specs.Found as definition;
ghost use Rattle.layer_ways.specs.Found.{edge_as, fill_as, is_found, is_more_at, is_more_here, later, made_here, ForEdges, ForLook};
ghost use Rattle.layer_ways.specs.Named as names;
ghost use Rattle.layer_ways.specs.Named.{lacks};
ghost use Rattle.layer_ways.specs.Ways as ways;
ghost use Rattle.layer_ways.specs.Ways.{sureness_of};

use crate::found::{Fill, alpha_on, fill_on, pixels_on, shown_on};
use crate::named::{Named, is_named, named_by};
use crate::types::Shown;
use crate::ways::{Effect, way_by};
use anim_timing::progress;
use fix_span::Loose;
use page_model::{Anim, Prop, Scene, Setup};
use slot_values::{EXTENT, POSITION, Slot};

/// What was found of the edges of a box, in whole pixels.
#[derive(Clone, Copy)]
pub struct Edges {
    pub left: Option<Loose>,
    pub top: Option<Loose>,
    pub width: Option<Loose>,
    pub height: Option<Loose>,
}

/// What was found of how it looks.
#[derive(Clone, Copy)]
pub struct Look {
    pub fill: Option<Fill>,
    pub alpha: Option<Loose>,
    pub shown: Option<Shown>,
}

/// What was found of a layer.
#[derive(Clone, Copy)]
pub struct Found {
    pub edges: Edges,
    pub look: Look,
}

/// Nothing was found.
const NOTHING: Found = Found {
    edges: Edges {
        left: None,
        top: None,
        width: None,
        height: None,
    },
    look: Look {
        fill: None,
        alpha: None,
        shown: None,
    },
};

/// A length by an animation, where the animation's set names it.
fn pixels_by(scene: &Scene, by: Effect, prop: Prop, slot: Slot) -> Option<Loose>
    requires valid { IsValid scene.now }
    requires unit { 0 < slot.unit }
    ensures { edge_as result
        ≡ made_here (definition.pixels_by (slot_as slot)) scene.now by.layer by.anim (fraction_of by.at) prop }
{
    match way_by(scene, by, prop) {
        Some(way) => Some(pixels_on(slot, way)),
        None => None,
    }
}

/// The colour by an animation.
fn fill_by(scene: &Scene, by: Effect) -> Option<Fill>
    requires { IsValid scene.now }
    ensures { option_map fill_as result
        ≡ made_here definition.fill_by scene.now by.layer by.anim (fraction_of by.at) Background }
{
    match way_by(scene, by, Prop::Background) {
        Some(way) => Some(fill_on(way)),
        None => None,
    }
}

/// The opacity by an animation.
fn alpha_by(scene: &Scene, by: Effect) -> Option<Loose>
    requires { IsValid scene.now }
    ensures { edge_as result ≡ made_here definition.alpha_by scene.now by.layer by.anim (fraction_of by.at) Opacity }
{
    match way_by(scene, by, Prop::Opacity) {
        Some(way) => Some(alpha_on(way)),
        None => None,
    }
}

/// By an animation how surely the layer is shown.
fn shown_by(scene: &Scene, by: Effect) -> Option<Shown>
    requires { IsValid scene.now }
    ensures { option_map sureness_of result
        ≡ made_here ways.shown_by scene.now by.layer by.anim (fraction_of by.at) Visibility }
{
    match way_by(scene, by, Prop::Visibility) {
        Some(way) => Some(shown_on(way)),
        None => None,
    }
}

/// Adds a length by an animation before, where none was found.
fn add_edge(
    found: &mut Option<Loose>,
    named: bool,
    scene: &Scene,
    by: Effect,
    prop: Prop,
    slot: Slot,
)
    requires valid { IsValid scene.now }
    requires unit { 0 < slot.unit }
    requires unnamed { named ≡ false → interval_here scene.now by.layer by.anim prop (fraction_of by.at) ≡ None }
    ensures { edge_as found.new
        ≡ later (made_here (definition.pixels_by (slot_as slot)) scene.now by.layer by.anim (fraction_of by.at) prop)
        (edge_as found.old) }
{
    if named && found.is_none() {
        *found = pixels_by(scene, by, prop, slot);
    }
}

/// Adds the colour, where none was found.
fn add_fill(found: &mut Option<Fill>, named: bool, scene: &Scene, by: Effect)
    requires valid { IsValid scene.now }
    requires unnamed { named ≡ false → interval_here scene.now by.layer by.anim Background (fraction_of by.at) ≡ None }
    ensures { option_map fill_as found.new
        ≡ later (made_here definition.fill_by scene.now by.layer by.anim (fraction_of by.at) Background)
        (option_map fill_as found.old) }
{
    if named && found.is_none() {
        *found = fill_by(scene, by);
    }
}

/// Adds the opacity, where none was found.
fn add_alpha(found: &mut Option<Loose>, named: bool, scene: &Scene, by: Effect)
    requires valid { IsValid scene.now }
    requires unnamed { named ≡ false → interval_here scene.now by.layer by.anim Opacity (fraction_of by.at) ≡ None }
    ensures { edge_as found.new
        ≡ later (made_here definition.alpha_by scene.now by.layer by.anim (fraction_of by.at) Opacity)
        (edge_as found.old) }
{
    if named && found.is_none() {
        *found = alpha_by(scene, by);
    }
}

/// Adds how surely the layer is shown, where that wasn't found.
fn add_shown(found: &mut Option<Shown>, named: bool, scene: &Scene, by: Effect)
    requires valid { IsValid scene.now }
    requires unnamed { named ≡ false → interval_here scene.now by.layer by.anim Visibility (fraction_of by.at) ≡ None }
    ensures { option_map sureness_of found.new
        ≡ later (made_here ways.shown_by scene.now by.layer by.anim (fraction_of by.at) Visibility)
        (option_map sureness_of found.old) }
{
    if named && found.is_none() {
        *found = shown_by(scene, by);
    }
}

/// Adds the edges by an animation before.
fn add_edges(edges: &mut Edges, named: &Named, scene: &Scene, by: Effect)
    requires valid { IsValid scene.now }
    requires unnamed { (prop : Property) → names.is_named named.now prop ≡ false
        → interval_here scene.now by.layer by.anim prop (fraction_of by.at) ≡ None }
    ensures { ForEdges (is_more_here scene.now by.layer by.anim (fraction_of by.at)) edges.old edges.new }
{
    let left = is_named(named, Prop::Left);
    add_edge(&mut edges.left, left, scene, by, Prop::Left, POSITION);
    let top = is_named(named, Prop::Top);
    add_edge(&mut edges.top, top, scene, by, Prop::Top, POSITION);
    let width = is_named(named, Prop::Width);
    add_edge(&mut edges.width, width, scene, by, Prop::Width, EXTENT);
    let height = is_named(named, Prop::Height);
    add_edge(&mut edges.height, height, scene, by, Prop::Height, EXTENT);
}

/// Adds the look by an animation before.
fn add_look(look: &mut Look, named: &Named, scene: &Scene, by: Effect)
    requires valid { IsValid scene.now }
    requires unnamed { (prop : Property) → names.is_named named.now prop ≡ false
        → interval_here scene.now by.layer by.anim prop (fraction_of by.at) ≡ None }
    ensures { ForLook (is_more_here scene.now by.layer by.anim (fraction_of by.at)) look.old look.new }
{
    let fill = is_named(named, Prop::Background);
    add_fill(&mut look.fill, fill, scene, by);
    let alpha = is_named(named, Prop::Opacity);
    add_alpha(&mut look.alpha, alpha, scene, by);
    let shown = is_named(named, Prop::Visibility);
    add_shown(&mut look.shown, shown, scene, by);
}

/// Adds both, the look only where all is asked for.
fn add_found(found: &mut Found, whole: bool, named: &Named, scene: &Scene, by: Effect)
    requires valid { IsValid scene.now }
    requires unnamed { (prop : Property) → names.is_named named.now prop ≡ false
        → interval_here scene.now by.layer by.anim prop (fraction_of by.at) ≡ None }
    ensures edges { ForEdges (is_more_here scene.now by.layer by.anim (fraction_of by.at)) found.old.edges found.new.edges }
    ensures look { whole ≡ true
        → ForLook (is_more_here scene.now by.layer by.anim (fraction_of by.at)) found.old.look found.new.look }
{
    add_edges(&mut found.edges, named, scene, by);
    if whole {
        add_look(&mut found.look, named, scene, by);
    }
}

/// Whether something is named and wasn't found.
fn lacks<T>(named: bool, found: &Option<T>) -> bool
    ensures { result ≡ names.lacks named found.now }
{
    named && found.is_none()
}

/// Whether an edge is.
fn lacks_edge(named: &Named, edges: &Edges) -> bool
    ensures { result ≡ definition.lacks_edge named.now edges.now }
{
    if lacks(is_named(named, Prop::Left), &edges.left) {
        return true;
    }
    if lacks(is_named(named, Prop::Top), &edges.top) {
        return true;
    }
    if lacks(is_named(named, Prop::Width), &edges.width) {
        return true;
    }
    lacks(is_named(named, Prop::Height), &edges.height)
}

/// Whether a part of the look is.
fn lacks_look(named: &Named, look: &Look) -> bool
    ensures { result ≡ definition.lacks_look named.now look.now }
{
    if lacks(is_named(named, Prop::Background), &look.fill) {
        return true;
    }
    if lacks(is_named(named, Prop::Opacity), &look.alpha) {
        return true;
    }
    lacks(is_named(named, Prop::Visibility), &look.shown)
}

/// Whether an animation may give something that is asked for.
fn is_asked(found: &Found, whole: bool, named: &Named) -> bool
    ensures { result ≡ (definition.lacks_edge named.now found.now.edges
        || (whole && definition.lacks_look named.now found.now.look)) }
{
    if lacks_edge(named, &found.edges) {
        return true;
    }
    if whole {
        return lacks_look(named, &found.look);
    }
    false
}

/// Adds what an animation before makes in a frame: its progress is asked for only where it names a property that is
/// asked for and for which nothing was found.
fn add_at(
    found: &mut Found,
    whole: bool,
    scene: &Scene,
    setup: &Setup,
    k: u64,
    layer: u16,
    place: u16,
    anim: &Anim,
)
    requires valid { IsValid scene.now }
    requires frame { k < 2 ^ 32 }
    requires timed { IsTimed anim.now }
    requires own { (l : Element) → slice_get scene.now.layers layer ≡ Some l
        → slice_get l.anims place ≡ Some anim.now }
    ensures edges { (l : Element) → slice_get scene.now.layers layer ≡ Some l
        → ForEdges (is_more_at scene.now setup.now k l anim.now) found.old.edges found.new.edges }
    ensures look { (l : Element) → slice_get scene.now.layers layer ≡ Some l → whole ≡ true
        → ForLook (is_more_at scene.now setup.now k l anim.now) found.old.look found.new.look }
{
    let named = named_by(scene, anim);
    if !is_asked(found, whole, &named) {
        return;
    }
    if let Some(at) = progress(anim, setup, k) {
        let by = Effect {
            layer,
            anim: place,
            at,
        };
        add_found(found, whole, &named, scene, by);
    }
}

/// What the animations of a layer make of its edges in a frame, and of its look where all is asked for: from the last
/// animation to the first, so that a value is eased once.
pub fn found_at(
    scene: &Scene,
    setup: &Setup,
    k: u64,
    layer: u16,
    anims: &[Anim],
    whole: bool,
) -> Found
    requires valid { IsValid scene.now }
    requires frame { k < 2 ^ 32 }
    requires few { length anims.now ≤ 8 }
    requires timed { All IsTimed anims.now }
    requires own { (l : Element) → slice_get scene.now.layers layer ≡ Some l → l.anims ≡ anims.now }
    requires there { layer < length scene.now.layers }
    ensures edges { (l : Element) → slice_get scene.now.layers layer ≡ Some l
        → ForEdges (is_found scene.now setup.now k l anims.now) result.edges result.edges }
    ensures look { (l : Element) → slice_get scene.now.layers layer ≡ Some l → whole ≡ true
        → ForLook (is_found scene.now setup.now k l anims.now) result.look result.look }
{
    let mut found = NOTHING;
    for i in 0..anims.len() {
        let place = anims.len() - 1 - i;
        add_at(
            &mut found,
            whole,
            scene,
            setup,
            k,
            layer,
            place as u16,
            &anims[place],
        );
    }
    found
}
