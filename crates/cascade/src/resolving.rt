// From the sources to the scene.
ghost use Rattle.std.specs.Prelude.{◌≡◌, ◌⊎◌, IfErr, IfOk, All, Err, Ok, ℕ, length};
ghost use Rattle.page_model.specs.declared.scene.Scene.{Scene as SceneRecord};
ghost use Rattle.page_model.specs.Cascade as definition;
ghost use Rattle.page_model.specs.Cascade.{IsFirstFault, IsScene};
ghost use Rattle.page_model.specs.ValidScene.{IsValid};
ghost use Rattle.css_reader.specs.ReadySheet.{AreReadyDecls, IsReadySheet};
ghost use Rattle.cascade.specs.declared.scene_fault.SceneFault.TheVariants.{NoMemory as Refused};
ghost use Rattle.cascade.specs.Refusals.{IsRefusal, told};
ghost use Rattle.cascade.specs.Sources.{IsReadyPage, sources_of};

use crate::layers::layers_of;
use crate::order::paint_order;
use crate::scene_fault::SceneFault;
use crate::tables::{kept_sets, tables_of};
use css_reader::Sheet;
use page_model::{Decl, List, PageText, Scene};
use std::alloc::Global;

/// The scene of a page, its sheet and the style attributes of its elements.
///
/// It refuses exactly where an element has a fault, with that of the first such element, and a scene that there is,
/// is given; `NoMemory` stands beside either. What was handed in is dropped at a refusal.
pub fn resolve(
    alloc: Global,
    page: PageText,
    sheet: Sheet,
    inline: List<List<Decl>>,
) -> Result<Scene, SceneFault>
    requires page { IsReadyPage page.elements }
    requires sheet { IsReadySheet sheet }
    requires inline { All AreReadyDecls inline }
    requires one_each { length inline ≡ length page.elements }
    ensures scene { IfOk result (IsScene (sources_of sheet page.elements inline)) }
    ensures valid { IfOk result IsValid }
    ensures refused { IfErr result (IsRefusal (sources_of sheet page.elements inline)) }
    ensures faults { (number : ℕ) (kind : definition.Fault)
        → IsFirstFault (sources_of sheet page.elements inline) number kind
        → (result ≡ Err (told number kind)) ⊎ (result ≡ Err Refused) }
    ensures given { (scene : SceneRecord) → IsScene (sources_of sheet page.elements inline) scene
        → IfErr result (λ fault. fault ≡ Refused) }
{
    let tables = tables_of(alloc, sheet.keyframe_sets().as_slice())?;
    let layers = layers_of(
        alloc,
        &sheet,
        &tables,
        page.elements.as_slice(),
        inline.as_slice(),
    )?;
    let order = paint_order(alloc, layers.as_slice())?;
    let sets = kept_sets(alloc, sheet.into_sets())?;
    Ok(Scene {
        layers,
        order,
        sets,
    })
}
