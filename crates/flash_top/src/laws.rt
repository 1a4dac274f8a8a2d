// What holds of every page, and of every witness of it.
ghost use Rattle.std.specs.Prelude.{ℕ, ◌≡◌, List, map, string_bytes};
ghost use Rattle.page_model.specs.declared.scene.Scene.{Scene as Loaded};
ghost use Rattle.flash_top.specs.Clear.{CheckDecides, ClearPagesAreDecided};
ghost use Rattle.flash_top.specs.Refusals.{EveryPageIsLoadedOrRefused, IsLoadedAs, IsRefusal};
ghost use Rattle.flash_top.specs.SameAnswers.{OneDemo, OneLight, OneTint, OneVerdict, OneVerified, ToldWitnessIsAccepted};
ghost use Rattle.flash_top.specs.declared.refusal.PageRefusal.{PageRefusal as Refusal};

use flash_words::command;

/// A page is refused for one cause, and then it isn't loaded.
pub fn one_refusal()
    ensures one { (bytes : List ℕ) (refusal other : Refusal) → IsRefusal bytes refusal → IsRefusal bytes other → other ≡ refusal }
    ensures apart { (bytes : List ℕ) (refusal : Refusal) (scene : Loaded) → IsRefusal bytes refusal → IsLoadedAs bytes scene → ⊥ }
{}

/// The bytes of each page are loaded, or refused for a cause: none is left without an answer.
pub fn every_page_is_loaded_or_refused()
    ensures { EveryPageIsLoadedOrRefused }
{}

/// The answers of each command exclude each other, want of memory apart. Of two witnesses of a page that fails, both tell the same
/// window, position and area; of two faults of a witness that isn't accepted, both tell the same condition. The page of a number is
/// told by one text.
pub fn one_answer()
    ensures check { OneVerdict }
    ensures verify { OneVerified }
    ensures tint { OneTint }
    ensures light { OneLight }
    ensures demo { OneDemo }
{}

/// What `check` tells of a page that fails is accepted by `verify` of the same page at the same setup, where memory isn't refused.
pub fn told_witness_is_accepted()
    ensures { ToldWitnessIsAccepted }
{}

/// A page within the counted bounds is passed or failed, where memory isn't refused, if no window is possibly bad by the wide kind or
/// some window is surely bad by it, and also if all easings are `linear` or `steps` and no saturated colour appears.
pub fn clear_pages_are_decided()
    ensures { ClearPagesAreDecided }
{}

/// So words that spell `check` of such a page come to pass or fail, where memory isn't refused and the source counts no fault.
pub fn check_decides(words: &[String])
    ensures { CheckDecides (map string_bytes words.now) }
{
    let _command = command(words);
}
