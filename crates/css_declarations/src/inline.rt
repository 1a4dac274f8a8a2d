// Inline styles.
ghost use Rattle.std.specs.Prelude.{ℕ, Err, ◌≡◌, ◌≤◌, IfOk, length, List as Items, Result as Outcome};
ghost use Rattle.page_model.specs.declared.rule.Decl.{Decl as Declared};
ghost use Rattle.style_tokens.specs.CssTokens.{AreTokens};
ghost use Rattle.css_declarations.specs.declared.fault.SheetFault.{SheetFault as Fault};
ghost use Rattle.css_declarations.specs.declared.fault.SheetFault.TheVariants.{BadKeyframes};
ghost use Rattle.css_declarations.specs.DeclarationReading.{Tells};
ghost use Rattle.css_declarations.specs.ReadyDecls.{AreReadyDecls};
ghost use Rattle.css_declarations.specs.InlineText.{IsInline, IsInlineRead, part_of};

use crate::context::Context;
use crate::declaration_list::declarations;
use crate::fault::SheetFault;
use page_model::{Decl, List, Place};
use std::alloc::Global;
use style_tokens::{CssToken, ScanFault, scan_css};

/// The declarations that tokens of an inline style spell.
fn read_tokens(
    alloc: Global,
    text: &[u8],
    part: Place,
    tokens: &[CssToken],
) -> Result<List<Decl>, SheetFault>
    requires { AreTokens part.to (part_of text.now part) tokens.now }
    ensures { IsInlineRead text.now part result }
{
    let mut decls = List::new(alloc);
    match declarations(alloc, Context::Inline, text, part.to, tokens, &mut decls) {
        Ok(_) => Ok(decls),
        Err(fault) => Err(fault),
    }
}

/// The declarations of an inline style, or its first fault.
fn read(alloc: Global, text: &[u8], part: Place) -> Result<List<Decl>, SheetFault>
    requires short { length text.now ≤ 1048576 }
    requires in_order { part.from ≤ part.to }
    requires inside { part.to ≤ length text.now }
    ensures { IsInlineRead text.now part result }
{
    match scan_css(alloc, text, part) {
        Ok(tokens) => read_tokens(alloc, text, part, tokens.as_slice()),
        Err(ScanFault::BadToken { at }) => Err(SheetFault::BadSheet { at }),
        Err(ScanFault::NoMemory) => Err(SheetFault::NoMemory),
    }
}

/// The declarations of a `style` attribute, whose text is this part of a file, in the order of the file; a shorthand
/// stands as its longhands. The fault is the first one of the text, with its place in the file. There is no
/// `BadKeyframes`.
pub fn read_inline(alloc: Global, text: &[u8], part: Place) -> Result<List<Decl>, SheetFault>
    requires short { length text.now ≤ 1048576 }
    requires in_order { part.from ≤ part.to }
    requires inside { part.to ≤ length text.now }
    // What is given is spelled, and a fault is the first one.
    ensures read { IsInlineRead text.now part result }
    // What is spelled is given, and the first fault is told, unless memory is refused.
    ensures told { (outcome : Outcome (Items Declared) Fault) → IsInline text.now part outcome → Tells result outcome }
    // What is given is as the cascade needs it.
    ensures ready { IfOk result AreReadyDecls }
    ensures no_keyframes { (place : ℕ) → result ≡ Err (BadKeyframes place) → ⊥ }
{
    read(alloc, text, part)
}
