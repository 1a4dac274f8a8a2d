// What holds of every page.
ghost use Rattle.std.specs.Prelude.{ℕ, ◌≡◌, ◌⊎◌, List, length};
ghost use Rattle.page_model.specs.declared.element.PageText.{PageText};
ghost use Rattle.page_reader.specs.PageText.{IsBadAt, IsRead, Spells, SpellsMany, SpellsNone};
ghost use Rattle.page_reader.specs.PageWhole.{IsWhole};

/// Bytes spell one page at most, or cease to spell one at one place, and not both.
pub fn one_page_reading()
    ensures page { (text : List ℕ) (page other : PageText) → Spells text page → Spells text other → other ≡ page }
    ensures place { (text : List ℕ) (place other : ℕ) → IsBadAt text place → IsBadAt text other → other ≡ place }
    ensures apart { (text : List ℕ) (page : PageText) (place : ℕ) → Spells text page → IsBadAt text place → ⊥ }
{}

/// Each text is a page of at most 64 boxes, or one of more, or ceases to be a page at a place: none is left without an
/// answer.
pub fn every_text_is_a_page_or_not()
    ensures { (text : List ℕ) → ((page : PageText) × IsRead text page) ⊎ SpellsMany text ⊎ ((place : ℕ) × SpellsNone text place) }
{}

/// A page that is read has its body first and no other, and its style text and its style attributes lie in the file.
pub fn page_is_whole()
    ensures { (text : List ℕ) (page : PageText) → IsRead text page → IsWhole (length text) page }
{}
