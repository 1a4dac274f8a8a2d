// Declarations with `;` between.
ghost use Rattle.std.specs.Prelude.{◌≡◌, ◌++◌, ◌<◌, ◌≤◌, length};
ghost use Rattle.css_declarations.specs.DeclarationReading.{shown};
ghost use Rattle.css_declarations.specs.DeclarationFaults.{AddsDeclarations};

use crate::context::{Context, is_closed};
use crate::declaration::unit_at;
use crate::fault::SheetFault;
use page_model::{Decl, List};
use std::alloc::Global;
use style_tokens::CssToken;

/// The tokens from what closes these declarations on, which are put behind others, or the first fault. The text ends
/// at this byte of the file.
pub fn declarations<'a>(
    alloc: Global,
    context: Context,
    text: &[u8],
    end: u32,
    tokens: &'a [CssToken],
    decls: &mut List<Decl>,
) -> Result<&'a [CssToken], SheetFault>
    ensures { AddsDeclarations context text.now end tokens.now decls.old decls.new (shown (λ rest. rest.now) result) }
{
    let mut rest = tokens;
    'declaring: while !is_closed(context, rest) {
        match unit_at(alloc, context, text, end, rest, decls) {
            Ok(more) => rest = more,
            Err(fault) => return Err(fault),
        }
    }
    Ok(rest)
}
