// Colours.
ghost use Rattle.css_colours.specs.Colours.{colour_of};
ghost use Rattle.css_colour_laws.specs.SpelledColours.{SpellsColour};
ghost use Rattle.css_word_laws.specs.ValueLaws.{Agrees, NonePast};

/// Colours are read as they are spelled.
pub fn colours_are_spelled()
    ensures { Agrees colour_of SpellsColour NonePast }
{}
