// Style sheets.
ghost use Rattle.std.specs.Prelude.{◌≡◌, ◌≤◌, IfOk, length, Result as Outcome};
ghost use Rattle.style_tokens.specs.CssTokens.{AreTokens};
ghost use Rattle.css_declarations.specs.DeclarationReading.{Tells, shown};
ghost use Rattle.css_declarations.specs.InlineText.{part_of};
ghost use Rattle.css_declarations.specs.declared.fault.SheetFault.{SheetFault as Fault};
ghost use Rattle.css_selectors.specs.Readings.{Puts};
ghost use Rattle.css_reader.specs.ReadySheet.{IsReadySheet};
ghost use Rattle.css_reader.specs.SheetGrammar.{IsItem, with_item};
ghost use Rattle.css_reader.specs.SheetState.{SheetState};
ghost use Rattle.css_reader.specs.SheetText.{IsSheet, IsSheetRead};

use crate::keyframes::keyframes_at;
use crate::rules::rule_at;
use crate::sheet::Sheet;
use css_declarations::SheetFault;
use css_parts::tokens::begins_at_word;
use page_model::Place;
use std::alloc::Global;
use style_tokens::{CssToken, ScanFault, scan_css};

/// A rule or a keyframe set is put in a sheet; the tokens behind it.
fn item_at<'a>(
    alloc: Global,
    text: &'a [u8],
    end: u32,
    tokens: &'a [CssToken],
    sheet: &mut Sheet,
) -> Result<&'a [CssToken], SheetFault>
    ensures { Puts with_item (IsItem text.now end tokens.now) sheet.old sheet.new (shown (λ rest. rest.now) result) }
{
    if begins_at_word(tokens) {
        keyframes_at(alloc, text, end, tokens, sheet)
    } else {
        rule_at(alloc, text, end, tokens, sheet)
    }
}

/// The sheet that tokens spell.
fn read_tokens(
    alloc: Global,
    text: &[u8],
    part: Place,
    tokens: &[CssToken],
) -> Result<Sheet, SheetFault>
    requires { AreTokens part.to (part_of text.now part) tokens.now }
    ensures { IsSheetRead text.now part result }
{
    let mut sheet = Sheet::new(alloc);
    let mut rest = tokens;
    'reading: while !rest.is_empty() {
        match item_at(alloc, text, part.to, rest, &mut sheet) {
            Ok(more) => rest = more,
            Err(fault) => return Err(fault),
        }
    }
    Ok(sheet)
}

/// The sheet of a part of a file, or its first fault.
fn read(alloc: Global, text: &[u8], part: Place) -> Result<Sheet, SheetFault>
    requires short { length text.now ≤ 1048576 }
    requires in_order { part.from ≤ part.to }
    requires inside { part.to ≤ length text.now }
    ensures { IsSheetRead text.now part result }
{
    match scan_css(alloc, text, part) {
        Ok(tokens) => read_tokens(alloc, text, part, tokens.as_slice()),
        Err(ScanFault::BadToken { at }) => Err(SheetFault::BadSheet { at }),
        Err(ScanFault::NoMemory) => Err(SheetFault::NoMemory),
    }
}

/// The style sheet of a part of a file: its rules in the order of the file, and its keyframe sets by name, of which a later one
/// replaces an earlier one whole. The fault is the first one of the text, with its place in the file.
pub fn read_sheet(alloc: Global, text: &[u8], part: Place) -> Result<Sheet, SheetFault>
    requires short { length text.now ≤ 1048576 }
    requires in_order { part.from ≤ part.to }
    requires inside { part.to ≤ length text.now }
    // What is given is spelled, and a fault is the first one.
    ensures read { IsSheetRead text.now part result }
    // What is spelled is given, and the first fault is told, unless memory is refused.
    ensures told { (outcome : Outcome SheetState Fault) → IsSheet text.now part outcome → Tells result outcome }
    // What is given is as the cascade needs it.
    ensures ready { IfOk result IsReadySheet }
{
    read(alloc, text, part)
}
