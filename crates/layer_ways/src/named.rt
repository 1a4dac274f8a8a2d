// Which properties the keyframes of an animation name.
ghost use Rattle.std.specs.Prelude.{◌≡◌, ◌||◌, ◌<◌, false, None, Some, slice_get};
ghost use Rattle.std.specs.List.{list_any};
ghost use Rattle.page_model.specs.declared.keyframe.KeyframeSet.{KeyframeSet as Set};
ghost use Rattle.page_model.specs.declared.property.Prop.{Prop as Property};
ghost use Rattle.page_model.specs.Keyframes as keyframes;
ghost use Rattle.page_model.specs.Keyframes.{is_same, names};
ghost use Rattle.layer_ways.specs.Named as definition;
ghost use Rattle.layer_ways.specs.Named.{is_set_by};

use keyframe_sets::number_of;
use page_model::{Anim, Keyframe, Prop, Scene, Setting};

/// How many properties an animation may change.
const PROPERTIES: usize = 7;

/// Of each property, by its number, whether it is named.
#[derive(Clone, Copy)]
pub struct Named {
    each: [bool; PROPERTIES],
}

/// No property is named.
const NONE_NAMED: Named = Named {
    each: [false; PROPERTIES],
};

/// The number of a property, as a place.
fn place_of(prop: Prop) -> usize
    ensures value { result ≡ keyframes.number_of prop }
    ensures inside { result < 7 }
{
    usize::from(number_of(prop))
}

/// Whether a property is named.
pub fn is_named(named: &Named, prop: Prop) -> bool
    ensures { result ≡ definition.is_named named.now prop }
{
    named.each[place_of(prop)]
}

/// Adds a property.
fn add_prop(named: &mut Named, prop: Prop)
    ensures { (other : Property) → definition.is_named named.new other
        ≡ (definition.is_named named.old other || is_same prop other) }
{
    named.each[place_of(prop)] = true;
}

/// Adds those of some settings.
fn add_settings(named: &mut Named, values: &[Setting])
    ensures { (other : Property) → definition.is_named named.new other
        ≡ (definition.is_named named.old other || list_any (λ setting. is_same setting.prop other) values.now) }
{
    for setting in values {
        add_prop(named, setting.prop);
    }
}

/// Those of some keyframes.
fn named_in(frames: &[Keyframe]) -> Named
    ensures { (other : Property) → definition.is_named result other ≡ list_any (is_set_by other) frames.now }
{
    let mut named = NONE_NAMED;
    for frame in frames {
        add_settings(&mut named, frame.values.as_slice());
    }
    named
}

/// Those of an animation's set: exactly those that the set names, and none where there is no such set.
pub fn named_by(scene: &Scene, anim: &Anim) -> Named
    ensures there { (other : Property) (set : Set) → slice_get scene.now.sets anim.now.set ≡ Some set
        → definition.is_named result other ≡ names other set.frames }
    ensures missing { slice_get scene.now.sets anim.now.set ≡ None
        → (other : Property) → definition.is_named result other ≡ false }
{
    match scene.sets.get(anim.set as usize) {
        Some(set) => named_in(set.frames.as_slice()),
        None => NONE_NAMED,
    }
}
