// What holds of every text of a page.
ghost use Rattle.std.specs.Prelude.{ℕ, ◌≡◌, ◌⊎◌, List};
ghost use Rattle.page_tokens.specs.HtmlText.{AreWordsOf, IsBadAt, IsStuck, IsText, Word};

/// A text has one list of tokens, or ceases to have one at one place, and not both.
pub fn one_html_reading()
    ensures tokens { (text : List ℕ) (words others : List Word) → IsText text words → IsText text others → others ≡ words }
    ensures place { (text : List ℕ) (place other : ℕ) → IsStuck text place → IsStuck text other → other ≡ place }
    ensures apart { (text : List ℕ) (place : ℕ) (words : List Word) → IsStuck text place → IsText text words → ⊥ }
{}

/// Each text has its tokens, or a place where it ceases to be tokens: none is left without an answer.
pub fn every_text_is_scanned()
    ensures { (text : List ℕ) → ((words : List Word) × AreWordsOf text words) ⊎ ((place : ℕ) × IsBadAt text place) }
{}
