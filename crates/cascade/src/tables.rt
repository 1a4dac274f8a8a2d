// The keyframe sets that name a property, which alone are left in a scene.
ghost use Rattle.std.specs.Prelude.{◌≡◌, ◌<◌, ◌^◌, IfOk, filter, length, map, nat_lt, not};
ghost use Rattle.std.specs.List.{list_any};
ghost use Rattle.page_model.specs.declared.property.Prop.TheVariants as prop;
ghost use Rattle.page_model.specs.Cascade as definition;
ghost use Rattle.page_model.specs.Keyframes.{is_same};
ghost use Rattle.cascade.specs.SetTables.{AreTables, kept_from};

use page_model::{Keyframe, KeyframeSet, List, NoMemory, Prop, Setting};
use std::alloc::Global;

/// For each set of a sheet its number among those that name a property, and for each of these whether it names more
/// than the background.
#[derive(Drop)]
pub struct Tables {
    pub numbers: Vec<Option<u32>>,
    pub more: Vec<bool>,
}

// Whether a keyframe of a set has a value.
fn names_property(set: &KeyframeSet) -> bool
    ensures { result ≡ definition.names_property set.now }
{
    some_has_value(set.frames.as_slice())
}

fn some_has_value(frames: &[Keyframe]) -> bool
    ensures { result ≡ list_any (λ frame. nat_lt 0 (length frame.values)) frames.now }
{
    frames.iter().any(|frame| frame.values.len() > 0)
}

fn is_background(asked: Prop) -> bool
    ensures { result ≡ is_same asked prop.Background }
{
    match asked {
        Prop::Background => true,
        Prop::Opacity => false,
        Prop::Visibility => false,
        Prop::Left => false,
        Prop::Top => false,
        Prop::Width => false,
        Prop::Height => false,
    }
}

fn some_is_more(values: &[Setting]) -> bool
    ensures { result ≡ list_any (λ setting. not (is_same setting.prop prop.Background)) values.now }
{
    values.iter().any(|setting| !is_background(setting.prop))
}

fn some_names_more(frames: &[Keyframe]) -> bool
    ensures { result ≡ list_any (λ frame. list_any (λ setting. not (is_same setting.prop prop.Background)) frame.values) frames.now }
{
    frames
        .iter()
        .any(|frame| some_is_more(frame.values.as_slice()))
}

// Whether a set names a property beside the background.
fn names_more(set: &KeyframeSet) -> bool
    ensures { result ≡ definition.names_more set.now }
{
    some_names_more(set.frames.as_slice())
}

// The numbers of the sets among those that name a property.
fn kept_numbers(alloc: Global, sets: &[KeyframeSet]) -> Result<Vec<Option<u32>>, NoMemory>
    requires { length sets.now < 2 ^ 32 }
    ensures { IfOk result (λ numbers. numbers.items ≡ kept_from 0 sets.now) }
{
    let mut numbers = Vec::new(alloc);
    let mut kept = 0;
    'numbering: for set in sets {
        if names_property(set) {
            numbers.push(Some(kept))?;
            kept += 1;
        } else {
            numbers.push(None)?;
        }
    }
    Ok(numbers)
}

// Which of the sets that name a property name more than the background.
fn kept_more(alloc: Global, sets: &[KeyframeSet]) -> Result<Vec<bool>, NoMemory>
    ensures { IfOk result (λ more. more.items ≡ map definition.names_more (filter definition.names_property sets.now)) }
{
    let mut more = Vec::new(alloc);
    'asking: for set in sets {
        if names_property(set) {
            more.push(names_more(set))?;
        }
    }
    Ok(more)
}

/// What is asked of a sheet's sets, once for all elements.
pub fn tables_of(alloc: Global, sets: &[KeyframeSet]) -> Result<Tables, NoMemory>
    requires { length sets.now < 2 ^ 32 }
    ensures { IfOk result (AreTables sets.now) }
{
    let numbers = kept_numbers(alloc, sets)?;
    let more = kept_more(alloc, sets)?;
    Ok(Tables { numbers, more })
}

/// The sets that name a property, in their order.
pub fn kept_sets(alloc: Global, sets: List<KeyframeSet>) -> Result<List<KeyframeSet>, NoMemory>
    ensures { IfOk result (λ kept. kept ≡ filter definition.names_property sets) }
{
    let mut kept = List::new(alloc);
    'keeping: for set in sets.into_vec() {
        if names_property(&set) {
            kept.push(set)?;
        }
    }
    Ok(kept)
}
