// What a page comes to by `tint`: it is opened, and the pixel is painted.
ghost use Rattle.std.specs.Prelude.{ℕ, ◌≡◌, List};
ghost use Rattle.page_model.specs.ValidScene.{IsValid};
ghost use Rattle.flash_top.specs.Files.{HasFile, OrUnread};
ghost use Rattle.flash_top.specs.Refusals.{IsLoadedAs};
ghost use Rattle.flash_top.specs.Verdicts.{IsTinted};

use crate::opening::open_page;
use crate::outcome::Outcome;
use io_edge::Source;
use page_model::{Scene, Setup};
use std::alloc::Global;

/// A frame, and a pixel of the viewport by its column and row.
#[derive(Clone, Copy)]
pub(crate) struct Spot {
    pub frame: u32,
    pub column: u16,
    pub row: u16,
}

/// What the page in the file of this name comes to for the tint of a pixel.
pub(crate) fn tint<S: Source>(
    alloc: Global,
    name: &str,
    setup: Setup,
    spot: Spot,
    source: &mut S,
) -> Outcome
    requires { S.may_open source.old name.now }
    ensures { OrUnread (S.faults source.old) (S.faults source.new) result
        (HasFile (S.files source.old) name.now (λ bytes. IsTinted setup (record { frame = spot.frame; column = spot.column; row = spot.row }) bytes result)) }
{
    match open_page(alloc, name, source) {
        Ok(scene) => paint(&scene, setup, spot),
        Err(outcome) => outcome,
    }
}

/// What the bytes of a page come to whose scene this is.
fn paint(scene: &Scene, setup: Setup, spot: Spot) -> Outcome
    requires { IsValid scene.now }
    ensures { (bytes : List ℕ) → IsLoadedAs bytes scene.now
        → IsTinted setup (record { frame = spot.frame; column = spot.column; row = spot.row }) bytes result }
{
    let Spot { frame, column, row } = spot;
    Outcome::Painted(paint_blend::tint(scene, &setup, frame as u64, column, row))
}
