// Lists.
ghost use Rattle.std.specs.Prelude.{false, true};
ghost use Rattle.css_easings.specs.Easings.{easing_of};
ghost use Rattle.css_items.specs.ItemWords.{direction_words, fill_words, play_words};
ghost use Rattle.css_items.specs.Lists.{list_of};
ghost use Rattle.css_items.specs.Names.{keyword_of, name_of};
ghost use Rattle.css_quantities.specs.Quantities.{count_of, duration_of, time_of};
ghost use Rattle.css_easing_laws.specs.SpelledEasings.{PastEasing, SpellsEasing};
ghost use Rattle.css_value_laws.specs.SpelledLists.{IsList, IsPastList};
ghost use Rattle.css_quantity_laws.specs.SpelledQuantities.{PastCount, PastTime, SpellsCount, SpellsDuration, SpellsTime};
ghost use Rattle.css_word_laws.specs.SpelledWords.{SpellsKeyword};
ghost use Rattle.css_value_laws.specs.SpelledNames.{SpellsName};
ghost use Rattle.css_word_laws.specs.ValueLaws.{Agrees, NonePast};

/// Lists of each kind are read as they are spelled: items with commas between. One that is wrong makes the list wrong,
/// and else one past its limit makes it past its limit.
pub fn lists_are_spelled()
    ensures names { Agrees (list_of name_of) (IsList SpellsName) (IsPastList SpellsName NonePast) }
    ensures durations { Agrees (list_of duration_of) (IsList SpellsDuration) (IsPastList SpellsDuration (PastTime false)) }
    ensures delays { Agrees (list_of (time_of true)) (IsList (SpellsTime true)) (IsPastList (SpellsTime true) (PastTime true)) }
    ensures easings { Agrees (list_of easing_of) (IsList SpellsEasing) (IsPastList SpellsEasing PastEasing) }
    ensures counts { Agrees (list_of count_of) (IsList SpellsCount) (IsPastList SpellsCount PastCount) }
    ensures directions { Agrees (list_of (keyword_of direction_words)) (IsList (SpellsKeyword direction_words)) (IsPastList (SpellsKeyword direction_words) NonePast) }
    ensures fills { Agrees (list_of (keyword_of fill_words)) (IsList (SpellsKeyword fill_words)) (IsPastList (SpellsKeyword fill_words) NonePast) }
    ensures plays { Agrees (list_of (keyword_of play_words)) (IsList (SpellsKeyword play_words)) (IsPastList (SpellsKeyword play_words) NonePast) }
{}
