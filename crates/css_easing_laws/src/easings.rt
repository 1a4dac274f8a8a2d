// Easings.
ghost use Rattle.css_easings.specs.Easings.{easing_of};
ghost use Rattle.css_easing_laws.specs.SpelledEasings.{PastEasing, SpellsEasing};
ghost use Rattle.css_word_laws.specs.ValueLaws.{Agrees};

/// Easings are read as they are spelled.
pub fn easings_are_spelled()
    ensures { Agrees easing_of SpellsEasing PastEasing }
{}
