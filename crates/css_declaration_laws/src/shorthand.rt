// The shorthand.
ghost use Rattle.css_values.specs.ShorthandGrammar.{item_of};
ghost use Rattle.css_declaration_laws.specs.SpelledShorthand.{PastItem, SpellsItem};
ghost use Rattle.css_word_laws.specs.ValueLaws.{Agrees};

/// An item of the shorthand `animation` is read as it is spelled.
pub fn items_are_spelled()
    ensures { Agrees item_of SpellsItem PastItem }
{}
