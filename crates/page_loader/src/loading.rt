// From bytes to the scene.
ghost use Rattle.std.specs.Prelude.{◌≡◌, ◌≤◌, ◌⊎◌, All, Err, IfErr, IfOk, Ok, Result as Outcome, length};
ghost use Rattle.page_model.specs.declared.scene.Scene.{Scene as Judged};
ghost use Rattle.page_model.specs.ValidScene.{IsValid};
ghost use Rattle.css_reader.specs.ReadySheet.{AreReadyDecls, IsReadySheet};
ghost use Rattle.css_reader.specs.SheetText.{SpellsSheet};
ghost use Rattle.page_reader.specs.PageText.{IsRead};
ghost use Rattle.page_loader.specs.Loading.{AreInline, IsLoad, IsRefused, SpellScene, SpellStyle};
ghost use Rattle.page_loader.specs.declared.load_fault.LoadFault.{LoadFault as Fault};
ghost use Rattle.page_loader.specs.declared.load_fault.LoadFault.TheVariants.{NoMemory as Refused};

use crate::faults::{of_page, of_scene, of_sheet};
use crate::load_fault::LoadFault;
use crate::styles::read_styles;
use cascade::resolve;
use css_reader::{Sheet, read_sheet};
use page_model::{Decl, List, PageText, Scene};
use page_reader::read_page;
use std::alloc::Global;

/// The scene of a page, its sheet and its style attributes.
fn load_parts(
    alloc: Global,
    text: &[u8],
    page: PageText,
    sheet: Sheet,
    inline: List<List<Decl>>,
) -> Result<Scene, LoadFault>
    requires style { SpellStyle text.now page sheet }
    requires sheet { IsReadySheet sheet }
    requires inline { AreInline text.now page.elements inline }
    requires ready { All AreReadyDecls inline }
    ensures scene { IfOk result (SpellScene text.now) }
    ensures valid { IfOk result IsValid }
    ensures refused { IfErr result (IsRefused text.now) }
{
    match resolve(alloc, page, sheet, inline) {
        Ok(scene) => Ok(scene),
        Err(fault) => Err(of_scene(fault)),
    }
}

/// The scene of a page and its sheet.
fn load_styled(alloc: Global, text: &[u8], page: PageText, sheet: Sheet) -> Result<Scene, LoadFault>
    requires short { length text.now ≤ 1048576 }
    requires style { SpellStyle text.now page sheet }
    requires sheet { IsReadySheet sheet }
    ensures scene { IfOk result (SpellScene text.now) }
    ensures valid { IfOk result IsValid }
    ensures refused { IfErr result (IsRefused text.now) }
{
    match read_styles(alloc, text, page.elements.as_slice()) {
        Ok(inline) => load_parts(alloc, text, page, sheet, inline),
        Err(fault) => Err(of_sheet(fault)),
    }
}

/// The scene of a page.
fn load_page(alloc: Global, text: &[u8], page: PageText) -> Result<Scene, LoadFault>
    requires short { length text.now ≤ 1048576 }
    requires page { IsRead text.now page }
    ensures scene { IfOk result (SpellScene text.now) }
    ensures valid { IfOk result IsValid }
    ensures refused { IfErr result (IsRefused text.now) }
{
    match read_sheet(alloc, text, page.sheet) {
        Ok(sheet) => load_styled(alloc, text, page, sheet),
        Err(fault) => Err(of_sheet(fault)),
    }
}

/// The scene of a file.
fn read(alloc: Global, text: &[u8]) -> Result<Scene, LoadFault>
    requires { length text.now ≤ 1048576 }
    ensures scene { IfOk result (SpellScene text.now) }
    ensures valid { IfOk result IsValid }
    ensures refused { IfErr result (IsRefused text.now) }
{
    match read_page(alloc, text) {
        Ok(page) => load_page(alloc, text, page),
        Err(fault) => Err(of_page(fault)),
    }
}

/// The scene that the bytes of a page spell.
///
/// # Errors
///
/// The first fault of the file, in this order: of the page's text; of the style text; of the style attributes, from
/// the body's on; of the elements, from the body on. Or want of memory.
pub fn load(alloc: Global, text: &[u8]) -> Result<Scene, LoadFault>
    requires { length text.now ≤ 1048576 }
    // What is given is spelled, and it is valid.
    ensures scene { IfOk result (SpellScene text.now) }
    ensures valid { IfOk result IsValid }
    // A fault is the first one.
    ensures refused { IfErr result (IsRefused text.now) }
    // What is spelled is given, and the first fault is told, unless memory is refused.
    ensures told { (outcome : Outcome Judged Fault) → IsLoad text.now outcome → (result ≡ outcome) ⊎ (result ≡ Err Refused) }
{
    read(alloc, text)
}
