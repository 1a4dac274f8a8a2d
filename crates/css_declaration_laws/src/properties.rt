// Properties.
ghost use Rattle.std.specs.Prelude.{ℕ, List, Result as Outcome, Some, ◌≡◌, ◌↔◌, ◌⊎◌};
ghost use Rattle.page_model.specs.declared.rule.Longhand.{Longhand as Longhands};
ghost use Rattle.css_words.specs.declared.fault.ValueFault.{ValueFault};
ghost use Rattle.css_values.specs.declared.types.Property.{Property};
ghost use Rattle.css_words.specs.Keywords.{lookup};
ghost use Rattle.css_values.specs.PropertyNames.{property_names};
ghost use Rattle.css_items.specs.Lists.{Gives};
ghost use Rattle.css_words.specs.Words.{Word};
ghost use Rattle.css_values.specs.ValueGrammar.{declaration_of, longhand_of};
ghost use Rattle.css_declaration_laws.specs.SpelledLonghands.{PastLonghand, SpellsLonghand};
ghost use Rattle.css_declaration_laws.specs.Spelling.{Answers, Spells, SpellsNone, SpellsPast};
ghost use Rattle.css_word_laws.specs.SpelledWords.{IsEntry};
ghost use Rattle.css_word_laws.specs.ValueLaws.{Agrees};

/// A property is found exactly where the bytes are its name, in any case.
pub fn properties_are_named()
    ensures { (bytes : List ℕ) (property : Property) → (lookup property_names bytes ≡ Some property) ↔ IsEntry property_names bytes property }
{}

/// The one longhand of each property but the shorthand is read as it is spelled.
pub fn longhands_are_spelled()
    ensures { (property : Property) → Agrees (longhand_of property) (SpellsLonghand property) (PastLonghand property) }
{}

/// The value of a declaration of each property is read as it is spelled: what `declaration` of `css_values` gives is
/// what the words spell.
pub fn declarations_are_spelled()
    ensures { (property : Property) → Agrees (declaration_of property) (Spells property) (SpellsPast property) }
{}

/// What a call answers by the clause of `declaration` of `css_values` is what the words spell, unless memory was refused.
pub fn answers_are_spelled()
    ensures { (property : Property) (words : List Word) (result : Outcome (List Longhands) ValueFault)
        → Gives result (declaration_of property words) → Answers property words result }
{}

/// Whatever words stand in the place of a property's value, they spell one, or one past a limit, or none.
pub fn every_declaration_is_judged()
    ensures { (property : Property) (words : List Word)
        → ((all : List Longhands) × Spells property words all) ⊎ (SpellsPast property words ⊎ SpellsNone property words) }
{}
