// What a page comes to by `check`: it is opened, and its scene is judged.
ghost use Rattle.std.specs.Prelude.{◌≡◌, ℕ, List};
ghost use Rattle.page_model.specs.ValidScene.{IsValid};
ghost use Rattle.flash_top.specs.Files.{HasFile, OrUnread};
ghost use Rattle.flash_top.specs.Refusals.{IsLoadedAs};
ghost use Rattle.flash_top.specs.Steps.{told};
ghost use Rattle.flash_top.specs.Verdicts.{IsVerdict};

use crate::opening::open_page;
use crate::outcome::Outcome;
use io_edge::Source;
use page_judge::{Judgement, judge};
use page_model::{NoMemory, Scene, Setup};
use std::alloc::Global;

/// What the page in the file of this name comes to.
pub(crate) fn check<S: Source>(alloc: Global, name: &str, setup: Setup, source: &mut S) -> Outcome
    requires { S.may_open source.old name.now }
    ensures { OrUnread (S.faults source.old) (S.faults source.new) result
        (HasFile (S.files source.old) name.now (λ bytes. IsVerdict setup bytes result)) }
{
    match open_page(alloc, name, source) {
        Ok(scene) => verdict(alloc, scene, setup),
        Err(outcome) => outcome,
    }
}

/// What the bytes of a page come to whose scene this is.
fn verdict(alloc: Global, scene: Scene, setup: Setup) -> Outcome
    requires { IsValid scene }
    ensures { (bytes : List ℕ) → IsLoadedAs bytes scene → IsVerdict setup bytes result }
{
    match judge(alloc, scene, setup) {
        Ok(judgement) => told(judgement),
        Err(NoMemory) => Outcome::NoMemory,
    }
}

/// A judgement as it is told.
fn told(judgement: Judgement) -> Outcome
    ensures { result ≡ told judgement }
{
    match judgement {
        Judgement::Pass { frames, apart } => Outcome::Pass { frames, apart },
        Judgement::Fail(witness) => Outcome::Fail(witness),
        Judgement::Frames => Outcome::TooManyFrames,
        Judgement::Work { cells, frames } => Outcome::TooMuchWork { cells, frames },
        Judgement::Enclosure { start, x, y } => Outcome::Enclosed { start, x, y },
    }
}
