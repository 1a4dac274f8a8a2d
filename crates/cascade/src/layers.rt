// The layers of the elements, up to the first fault.
ghost use Rattle.std.specs.Prelude.{◌≡◌, ◌≤◌, ◌<◌, ◌⊎◌, IfErr, IfOk, All, Some, length};
ghost use Rattle.page_model.specs.Cascade as definition;
ghost use Rattle.css_reader.specs.ReadySheet.{AreReadyDecls, IsReadySheet};
ghost use Rattle.cascade.specs.declared.scene_fault.SceneFault.TheVariants.{NoMemory as Refused};
ghost use Rattle.cascade.specs.FaultViews.{fault_as};
ghost use Rattle.cascade.specs.Refusals.{IsRefusal, IsToldOf, told};
ghost use Rattle.cascade.specs.SetTables.{AreTables};
ghost use Rattle.cascade.specs.Sources.{AreLayers, IsFaultOf, IsGoodLayer, sources_of};

use crate::animations::animations;
use crate::faults::{Fault, fault_of};
use crate::layer::layer_of;
use crate::scene_fault::SceneFault;
use crate::tables::Tables;
use cascade_winners::winners_of;
use css_reader::Sheet;
use page_model::{Decl, Element, Layer, List};
use std::alloc::Global;

// The fault as it is told.
fn told(number: u16, fault: Fault) -> SceneFault
    ensures { result ≡ told number (fault_as fault) }
{
    match fault {
        Fault::NotPlaced => SceneFault::NotPlaced { index: number },
        Fault::BodyProperty => SceneFault::BodyProperty,
        Fault::TooManyAnimations => SceneFault::TooManyAnimations { index: number },
    }
}

// The layer of an element.
fn layer_at(
    alloc: Global,
    sheet: &Sheet,
    tables: &Tables,
    number: u16,
    element: &Element,
    inline: &List<Decl>,
) -> Result<Layer, SceneFault>
    requires sheet { IsReadySheet sheet.now }
    requires tables { AreTables sheet.now.sets tables.now }
    requires inline { AreReadyDecls inline.now }
    ensures layer { IfOk result (IsGoodLayer sheet.now element.now inline.now) }
    ensures refused { IfErr result (λ fault. (fault ≡ Refused)
        ⊎ IsToldOf (λ kind. IsFaultOf sheet.now element.now inline.now (Some kind)) number fault) }
{
    let winners = winners_of(sheet.rules(), element, inline);
    let anims = animations(alloc, sheet, tables, &winners)?;
    match fault_of(
        element.tag,
        tables.more.as_slice(),
        &winners,
        anims.as_slice(),
    ) {
        Some(fault) => Err(told(number, fault)),
        None => Ok(layer_of(&winners, anims)),
    }
}

/// The layers of all elements.
pub fn layers_of(
    alloc: Global,
    sheet: &Sheet,
    tables: &Tables,
    elements: &[Element],
    inline: &[List<Decl>],
) -> Result<List<Layer>, SceneFault>
    requires sheet { IsReadySheet sheet.now }
    requires tables { AreTables sheet.now.sets tables.now }
    requires inline { All AreReadyDecls inline.now }
    requires one_each { length inline.now ≡ length elements.now }
    requires few { length elements.now ≤ 65 }
    ensures layers { IfOk result (λ layers. AreLayers sheet.now elements.now inline.now layers (length elements.now)) }
    ensures refused { IfErr result (IsRefusal (sources_of sheet.now elements.now inline.now)) }
{
    let mut layers = List::new(alloc);
    'elements: for number in 0..elements.len() {
        let layer = layer_at(
            alloc,
            sheet,
            tables,
            number as u16,
            &elements[number],
            &inline[number],
        )?;
        layers.push(layer)?;
    }
    Ok(layers)
}
