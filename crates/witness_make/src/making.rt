// The witness of a bad window.
ghost use Rattle.std.specs.Prelude.{◌≡◌, ◌+◌, ◌*◌, ◌^◌, ◌<◌, ◌≤◌, IfOk, OnOk, sum_by};
ghost use Rattle.page_model.specs.declared.witness.Part.{Part};
ghost use Rattle.page_model.specs.Cells.{cells_between};
ghost use Rattle.page_model.specs.Enclosure.{own};
ghost use Rattle.page_model.specs.Time.{window_of};
ghost use Rattle.page_model.specs.ValidScene.{IsValid};
ghost use Rattle.page_model.specs.Window.{IsSurelyBad};
ghost use Rattle.cell_tints.specs.Tints.{AreTintsOfCells};
ghost use Rattle.witness_make.specs.Made.{AreCutsOf, AreParts, ArePartsBefore, IsMade};

use crate::part::part_of;
use cell_tints::tints_of_cells;
use page_model::{BadWindow, List, NoMemory, Part, Scene, Setup, Tint, Witness};
use region_split::Cuts;
use std::alloc::Global;

/// Adds the part of a cell, where it has one.
fn add_part(
    parts: &mut Vec<Part>,
    scene: &Scene,
    setup: &Setup,
    cuts: &Cuts,
    tints: &[Tint],
    bad: BadWindow,
    number: u32,
) -> Result<(), NoMemory>
    requires valid { IsValid scene.now }
    requires cut { AreCutsOf scene.now setup.now bad.start cuts.now }
    requires known { number < cells_between cuts.now.xs cuts.now.ys }
    requires seen { AreTintsOfCells scene.now setup.now cuts.now bad.start (window_of setup.now + 1) tints.now }
    requires before { ArePartsBefore scene.now setup.now cuts.now bad.start bad.x bad.y number parts.old.items }
    ensures { OnOk result (ArePartsBefore scene.now setup.now cuts.now bad.start bad.x bad.y (number + 1) parts.new.items) }
{
    match part_of(scene, setup, cuts, tints, bad, number) {
        Some(part) => {
            parts.push(part)?;
            Ok(())
        }
        None => Ok(()),
    }
}

/// The parts of all cells, by their tints in the frames of the window.
fn parts_by(
    alloc: Global,
    scene: &Scene,
    setup: &Setup,
    cuts: &Cuts,
    tints: &[Tint],
    bad: BadWindow,
) -> Result<Vec<Part>, NoMemory>
    requires valid { IsValid scene.now }
    requires cut { AreCutsOf scene.now setup.now bad.start cuts.now }
    requires seen { AreTintsOfCells scene.now setup.now cuts.now bad.start (window_of setup.now + 1) tints.now }
    ensures { IfOk result (λ parts. AreParts scene.now setup.now cuts.now bad.start bad.x bad.y parts.items) }
{
    let mut parts = Vec::new(alloc);
    for number in 0..cuts.cells() {
        add_part(&mut parts, scene, setup, cuts, tints, bad, number)?;
    }
    Ok(parts)
}

/// The parts of all cells. The states of the layers are worked out once a frame.
fn parts_of(
    alloc: Global,
    scene: &Scene,
    setup: &Setup,
    cuts: &Cuts,
    bad: BadWindow,
) -> Result<Vec<Part>, NoMemory>
    requires valid { IsValid scene.now }
    requires cut { AreCutsOf scene.now setup.now bad.start cuts.now }
    ensures { IfOk result (λ parts. AreParts scene.now setup.now cuts.now bad.start bad.x bad.y parts.items) }
{
    let frames = u32::from(setup.rate()) + 1;
    let tints = tints_of_cells(alloc, scene, setup, cuts, bad.start, frames)?;
    parts_by(alloc, scene, setup, cuts, tints.as_slice(), bad)
}

/// How many pixels parts have.
fn area_of(parts: &[Part]) -> u32
    requires { sum_by (λ (part : Part). part.width * part.height) parts.now < 2 ^ 32 }
    ensures { result ≡ sum_by (λ (part : Part). part.width * part.height) parts.now }
{
    let mut area = 0;
    for part in parts {
        area += u32::from(part.width) * u32::from(part.height);
    }
    area
}

/// The witness of a window that is surely bad at its position: the setup's numbers, the window, and for each cell that is surely
/// flagged and meets the rectangle a part, cut to it, in the order of cells. Its area is the number of surely flagged pixels in the
/// rectangle, it meets all conditions of a witness, and it is in form. The cuts are the scene's in frames that cover the window.
///
/// # Errors
///
/// `NoMemory` where memory is refused.
pub fn make(
    alloc: Global,
    scene: &Scene,
    setup: &Setup,
    cuts: &Cuts,
    bad: BadWindow,
) -> Result<Witness, NoMemory>
    requires valid { IsValid scene.now }
    requires cut { AreCutsOf scene.now setup.now bad.start cuts.now }
    requires bad { IsSurelyBad own scene.now setup.now bad.start bad.x bad.y }
    ensures { IfOk result (λ w. IsMade scene.now setup.now cuts.now bad.start bad.x bad.y w) }
{
    let parts = parts_of(alloc, scene, setup, cuts, bad)?;
    let area = area_of(parts.as_slice());
    Ok(Witness {
        width: setup.width(),
        height: setup.height(),
        rate: setup.num(),
        per: setup.den(),
        start: bad.start,
        x: bad.x,
        y: bad.y,
        area,
        parts: List::from_vec(parts),
    })
}
