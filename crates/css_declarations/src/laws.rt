// The laws of readings.
ghost use Rattle.std.specs.Prelude.{◌≡◌, Err, List as Items, ℕ, Result as Outcome};
ghost use Rattle.page_model.specs.declared.place.Place.{Place as Part};
ghost use Rattle.page_model.specs.declared.rule.Decl.{Decl};
ghost use Rattle.css_declarations.specs.declared.fault.SheetFault.{SheetFault};
ghost use Rattle.css_declarations.specs.declared.fault.SheetFault.TheVariants.{NoMemory};
ghost use Rattle.css_declarations.specs.InlineText.{IsInline};

/// A text spells one list of declarations at most, or has one first fault, and not both.
pub fn one_inline_reading()
    ensures { (text : Items ℕ) (part : Part) (outcome other : Outcome (Items Decl) SheetFault) → IsInline text part outcome → IsInline text part other → other ≡ outcome }
{}

/// Every text, whatever its bytes are, spells a list of declarations or has a first fault, and want of memory is none.
pub fn every_inline_is_judged()
    ensures judged { (text : Items ℕ) (part : Part) → (outcome : Outcome (Items Decl) SheetFault) × IsInline text part outcome }
    ensures no_memory { (text : Items ℕ) (part : Part) → IsInline text part (Err NoMemory) → ⊥ }
{}
