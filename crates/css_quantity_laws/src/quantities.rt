// Numbers with their units.
ghost use Rattle.std.specs.Prelude.{Bool, List, false, true, ◌≡◌, ◌↔◌};
ghost use Rattle.css_quantities.specs.Quantities.{count_of, duration_of, is_nothing, length_of, opacity_of, percentage_of, time_of};
ghost use Rattle.css_quantities.specs.Quantities.{z_index_of};
ghost use Rattle.css_words.specs.Words.{Word};
ghost use Rattle.css_quantity_laws.specs.SpelledQuantities.{PastCount, PastLength, PastTime, PastZIndex, SpellsCount};
ghost use Rattle.css_quantity_laws.specs.SpelledQuantities.{SpellsDuration, SpellsLength, SpellsNothing, SpellsOpacity};
ghost use Rattle.css_quantity_laws.specs.SpelledQuantities.{SpellsPercentage, SpellsTime, SpellsZIndex};
ghost use Rattle.css_word_laws.specs.ValueLaws.{Agrees, NonePast};

/// Lengths, signed or not, are read as they are spelled.
pub fn lengths_are_spelled()
    ensures { (signed : Bool) → Agrees (length_of signed) (SpellsLength signed) (PastLength signed) }
{}

/// Times, signed or not, are read as they are spelled, and so are durations.
pub fn times_are_spelled()
    ensures times { (signed : Bool) → Agrees (time_of signed) (SpellsTime signed) (PastTime signed) }
    ensures durations { Agrees duration_of SpellsDuration (PastTime false) }
{}

/// Plain numbers and percentages are read as they are spelled: a percentage and an opacity has no limit.
pub fn plain_numbers_are_spelled()
    ensures percentages { Agrees percentage_of SpellsPercentage NonePast }
    ensures opacities { Agrees opacity_of SpellsOpacity NonePast }
    ensures z_indices { Agrees z_index_of SpellsZIndex PastZIndex }
    ensures counts { Agrees count_of SpellsCount PastCount }
{}

/// A margin or a padding of nothing is taken exactly where it is spelled.
pub fn nothing_is_spelled()
    ensures { (words : List Word) → (is_nothing words ≡ true) ↔ SpellsNothing words }
{}
