// What a number comes to by `demo`: its page is made, loaded and judged as that of a file.
ghost use Rattle.std.specs.Prelude.{◌≡◌, ◌≤◌, length};
ghost use Rattle.page_gen.specs.GeneratedPage.{generated_page};
ghost use Rattle.page_model.specs.ValidScene.{IsValid};
ghost use Rattle.flash_top.specs.Demos.{IsDemo};
ghost use Rattle.flash_top.specs.Refusals.{IsLoadedAs, page_limit};

use crate::opening::scene_of;
use crate::outcome::Outcome;
use page_gen::page_text;
use page_judge::judge;
use page_model::{NoMemory, Scene, Setup};
use std::alloc::Global;

/// What the page comes to that is made from a number.
pub(crate) fn demo(alloc: Global, number: u32, setup: Setup) -> Outcome
    ensures { IsDemo setup number result }
{
    match page_text(alloc, number) {
        Ok(text) => show(alloc, number, text.as_slice(), setup),
        Err(NoMemory) => Outcome::NoMemory,
    }
}

/// What the page of a number comes to that has these bytes.
#[tactic(auto, using(crate::proofs::DemoLemmas::unloaded_demo))]
fn show(alloc: Global, number: u32, text: &[u8], setup: Setup) -> Outcome
    requires made { text.now ≡ generated_page number }
    requires few { length text.now ≤ page_limit }
    ensures { IsDemo setup number result }
{
    match scene_of(alloc, text) {
        Ok(scene) => judged(alloc, number, scene, setup),
        Err(outcome) => outcome,
    }
}

/// What the page of a number comes to whose scene this is.
#[tactic(auto, using(crate::proofs::DemoLemmas::judged_demo))]
fn judged(alloc: Global, number: u32, scene: Scene, setup: Setup) -> Outcome
    requires valid { IsValid scene }
    requires loaded { IsLoadedAs (generated_page number) scene }
    ensures { IsDemo setup number result }
{
    match judge(alloc, scene, setup) {
        Ok(judgement) => Outcome::Shown { number, judgement },
        Err(NoMemory) => Outcome::NoMemory,
    }
}
