// Keywords of a table, and names.
ghost use Rattle.css_items.specs.ItemWords.{direction_words, fill_words, play_words, visibility_words};
ghost use Rattle.css_items.specs.Names.{keyword_of, name_of};
ghost use Rattle.css_word_laws.specs.SpelledWords.{SpellsKeyword};
ghost use Rattle.css_value_laws.specs.SpelledNames.{SpellsName};
ghost use Rattle.css_word_laws.specs.ValueLaws.{Agrees, NonePast};

/// Keywords are read as they are spelled, by a table without two words that are one.
pub fn keywords_are_spelled()
    ensures directions { Agrees (keyword_of direction_words) (SpellsKeyword direction_words) NonePast }
    ensures fills { Agrees (keyword_of fill_words) (SpellsKeyword fill_words) NonePast }
    ensures plays { Agrees (keyword_of play_words) (SpellsKeyword play_words) NonePast }
    ensures visibilities { Agrees (keyword_of visibility_words) (SpellsKeyword visibility_words) NonePast }
{}

/// Names of keyframe sets are read as they are spelled.
pub fn names_are_spelled()
    ensures { Agrees name_of SpellsName NonePast }
{}
