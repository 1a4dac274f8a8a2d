// The law of values.
ghost use Rattle.std.specs.Prelude.{Bool, List as Items};
ghost use Rattle.css_colours.specs.Colours.{colour_of};
ghost use Rattle.css_easings.specs.Easings.{easing_of};
ghost use Rattle.css_quantities.specs.Quantities.{length_of, opacity_of, percentage_of, time_of, z_index_of};
ghost use Rattle.css_values.specs.JudgedValues.{IsJudged};
ghost use Rattle.css_values.specs.ValueGrammar.{declaration_of};
ghost use Rattle.css_values.specs.declared.types.Property.{Property};
ghost use Rattle.css_words.specs.Words.{Word};

/// Whatever words stand in the place of a value, they spell one, or one past its limit, or none; so want of memory is
/// never what they spell.
pub fn every_value_is_judged()
    ensures declarations { (property : Property) (words : Items Word) → IsJudged (declaration_of property words) }
    ensures lengths { (signed : Bool) (words : Items Word) → IsJudged (length_of signed words) }
    ensures times { (signed : Bool) (words : Items Word) → IsJudged (time_of signed words) }
    ensures percentages { (words : Items Word) → IsJudged (percentage_of words) }
    ensures opacities { (words : Items Word) → IsJudged (opacity_of words) }
    ensures levels { (words : Items Word) → IsJudged (z_index_of words) }
    ensures colours { (words : Items Word) → IsJudged (colour_of words) }
    ensures easings { (words : Items Word) → IsJudged (easing_of words) }
{}
