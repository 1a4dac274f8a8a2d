// The laws of readings and of sheets.
ghost use Rattle.std.specs.Prelude.{◌≡◌, ◌⊎◌, [], Err, List as Items, Some, ℕ, Result as Outcome, false};
ghost use Rattle.std.specs.Str.{bytes_eq};
ghost use Rattle.page_model.specs.declared.keyframe.KeyframeSet.{KeyframeSet as SetOfFrames};
ghost use Rattle.page_model.specs.declared.place.Place.{Place as Part};
ghost use Rattle.css_declarations.specs.declared.fault.SheetFault.{SheetFault};
ghost use Rattle.css_declarations.specs.declared.fault.SheetFault.TheVariants.{BadSheet, NoMemory};
ghost use Rattle.style_tokens.specs.declared.token.CssToken.{CssToken};
ghost use Rattle.css_reader.specs.SheetGrammar.{Items as Spells};
ghost use Rattle.css_reader.specs.StuckSheets.{IsStuckAt};
ghost use Rattle.css_reader.specs.SheetState.{IsNumbered, SheetState, frames_named, with_set};
ghost use Rattle.css_reader.specs.SheetText.{IsSheet};

/// A text spells one sheet at most, or has one first fault, and not both.
pub fn one_sheet_reading()
    ensures { (text : Items ℕ) (part : Part) (outcome other : Outcome SheetState SheetFault) → IsSheet text part outcome → IsSheet text part other → other ≡ outcome }
{}

/// Every text, whatever its bytes are, spells a sheet or has a first fault, and want of memory is none.
pub fn every_sheet_is_judged()
    ensures judged { (text : Items ℕ) (part : Part) → (outcome : Outcome SheetState SheetFault) × IsSheet text part outcome }
    ensures no_memory { (text : Items ℕ) (part : Part) → IsSheet text part (Err NoMemory) → ⊥ }
{}

/// A `BadSheet` stands at a token with which, behind those before it, no sheet begins, or at the end of the text.
pub fn bad_sheets_are_stuck()
    ensures { (text : Items ℕ) (end : ℕ) (tokens : Items CssToken) (place : ℕ)
        → Spells text end [] tokens (Err (BadSheet place)) → IsStuckAt text end tokens place ⊎ (place ≡ end) }
{}

/// What a name means in a sheet: a set that is put is the one of its name, and each other name keeps its own.
pub fn one_set_a_name()
    ensures named { (sheet : SheetState) (name : Items ℕ) (set : SetOfFrames) → IsNumbered sheet
        → frames_named (with_set sheet name set) name ≡ Some set }
    ensures others { (sheet : SheetState) (name other : Items ℕ) (set : SetOfFrames) → IsNumbered sheet → bytes_eq name other ≡ false
        → frames_named (with_set sheet name set) other ≡ frames_named sheet other }
    ensures numbered { (sheet : SheetState) (name : Items ℕ) (set : SetOfFrames) → IsNumbered sheet
        → IsNumbered (with_set sheet name set) }
{}
