// Whole numbers.
ghost use Rattle.std.specs.Prelude.{ℕ, ◌≡◌, ◌↔◌, List, Some, option_and_then};
ghost use Rattle.css_words.specs.Numerals.{number_of, whole_of};
ghost use Rattle.css_word_laws.specs.SpelledWords.{IsWhole};

/// Whole numbers without sign, unit and point are read as they are spelled.
pub fn whole_numbers_are_spelled()
    ensures { (bytes : List ℕ) (n : ℕ) → (option_and_then whole_of (number_of bytes) ≡ Some n) ↔ IsWhole bytes n }
{}
