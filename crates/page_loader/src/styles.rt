// The style attributes of the elements.
ghost use Rattle.std.specs.Prelude.{◌≡◌, ◌≤◌, ◌⊎◌, All, IfErr, IfOk, length};
ghost use Rattle.page_model.specs.declared.element.Element.{Element as Boxed};
ghost use Rattle.css_declarations.specs.ReadyDecls.{AreReadyDecls};
ghost use Rattle.css_declarations.specs.declared.fault.SheetFault.TheVariants.{NoMemory as Refused};
ghost use Rattle.page_reader.specs.PageWhole.{IsWithin};
ghost use Rattle.page_loader.specs.Loading.{AreInline, IsFirstInline};

use css_reader::{SheetFault, read_inline};
use page_model::{Decl, Element, List};
use std::alloc::Global;

/// The declarations of the style attributes, one list for each element, or the fault of the first that has one.
pub(crate) fn read_styles(
    alloc: Global,
    text: &[u8],
    elements: &[Element],
) -> Result<List<List<Decl>>, SheetFault>
    requires short { length text.now ≤ 1048576 }
    requires within { All (λ (element : Boxed). IsWithin (length text.now) element.style) elements.now }
    ensures spelled { IfOk result (AreInline text.now elements.now) }
    ensures ready { IfOk result (All AreReadyDecls) }
    ensures refused { IfErr result (λ fault. (fault ≡ Refused) ⊎ IsFirstInline text.now elements.now fault) }
{
    let mut inline = List::new(alloc);
    'elements: for number in 0..elements.len() {
        let decls = read_inline(alloc, text, elements[number].style)?;
        inline.push(decls)?;
    }
    Ok(inline)
}
