// The parts of a scene.
ghost use Rattle.std.specs.Prelude.{Some, ◌≡◌, ◌<◌, ◌≤◌, length, slice_get};
ghost use Rattle.page_model.specs.Cells.{cells_between};
ghost use Rattle.page_model.specs.ValidScene.{IsValid};
ghost use Rattle.period_frames.specs.Repeats.{IsShortHorizon};
ghost use Rattle.region_split.specs.Cutting.{cell_of};
ghost use Rattle.region_split.specs.Marks.{frames_in};
ghost use Rattle.region_split.specs.Sound.{AreSound};
ghost use Rattle.region_parts.specs.Needs.{AreHorizonsBefore, IsCutByNeeds, IsGreatestIn, IsPartedOr, horizon_in};
ghost use Rattle.region_parts.specs.Parts.{ArePartsOf, IsParting};

use crate::horizons::horizons_of_cells;
use crate::needs::{Needs, needs_of};
use crate::types::PartFault;
use crate::work::is_little_work;
use page_model::{Scene, Setup};
use period_frames::Horizon;
use region_split::{Cuts, Rect};
use std::alloc::Global;
use std::marker::Model;

/// The cells of a scene, the horizon of each, and how many frames the longest of them is.
#[derive(Drop)]
pub struct Parted {
    cuts: Cuts,
    horizons: Vec<Horizon>,
    frames: u32,
}

impl Model for Parted {
    ghost use Rattle.std.specs.Prelude.{◌≡◌, length};
    ghost use Rattle.page_model.specs.Cells.{cells_between};
    ghost use Rattle.region_parts.specs.Parts.{Parts};

    ghost Value = { Parts };

    ghost view = { λ p. record { cuts = p.cuts; horizons = p.horizons.items; frames = p.frames } };

    ghost invariant = { λ p. length p.horizons.items ≡ cells_between p.cuts.xs p.cuts.ys };
}

impl Parted {
    /// The parts of a scene: each box cuts the viewport in the frames that it needs by itself, and each cell needs
    /// the frames of the layers that meet it.
    ///
    /// # Errors
    ///
    /// `NotApart` exactly where a layer or a cell needs more than 100,000 frames, or where cells times the frames
    /// that have to be looked at are more than 4,194,304; `NoMemory` where memory is refused.
    pub fn of(alloc: Global, scene: &Scene, setup: &Setup) -> Result<Parted, PartFault>
        requires { IsValid scene.now }
        ensures { IsParting scene.now setup.now result }
    {
        let needs = needs_of(alloc, scene, setup)?;
        let cuts = Cuts::every(alloc, scene, setup, needs.frames.as_slice())?;
        let horizons = horizons_of_cells(alloc, scene, setup, &cuts, &needs)?;
        parted_into(cuts, horizons, scene, setup, &needs)
    }

    /// How many cells there are.
    pub fn cells(&self) -> u32
        ensures { result ≡ cells_between self.now.cuts.xs self.now.cuts.ys }
    {
        self.cuts.cells()
    }

    /// The cell of a number: cells stand row by row from the top left.
    pub fn cell(&self, i: u32) -> Rect
        requires { i < cells_between self.now.cuts.xs self.now.cuts.ys }
        ensures { result ≡ cell_of self.now.cuts.xs self.now.cuts.ys i }
    {
        self.cuts.cell(i)
    }

    /// The columns at which cells begin or end, in rising order.
    pub fn xs(&self) -> &[u16]
        ensures value { result.now ≡ self.now.cuts.xs }
        ensures sound { AreSound result.now }
    {
        self.cuts.xs()
    }

    /// The rows at which cells begin or end, in rising order.
    pub fn ys(&self) -> &[u16]
        ensures value { result.now ≡ self.now.cuts.ys }
        ensures sound { AreSound result.now }
    {
        self.cuts.ys()
    }

    /// The edges and cells.
    pub fn cuts(&self) -> &Cuts
        ensures { result.now ≡ self.now.cuts }
    {
        &self.cuts
    }

    /// The horizon of the cell of a number.
    pub fn horizon(&self, i: u32) -> Horizon
        requires { i < cells_between self.now.cuts.xs self.now.cuts.ys }
        ensures { slice_get self.now.horizons i ≡ Some result }
    {
        self.horizons[i as usize]
    }

    /// How many frames the cell needs that needs the most.
    pub fn frames(&self) -> u32
        ensures { result ≡ self.now.frames }
    {
        self.frames
    }
}

/// The frames of the longest of some horizons.
fn greatest_of(horizons: &[Horizon]) -> u32
    requires some { 1 ≤ length horizons.now }
    requires short { (number : _) → number < length horizons.now → IsShortHorizon (horizon_in horizons.now number) }
    ensures { IsGreatestIn horizons.now result }
{
    let mut greatest = 0;
    for horizon in horizons {
        greatest = greatest.max(horizon.settled + horizon.period);
    }
    greatest
}

/// The parts of these cells and horizons, where cells times frames aren't too many.
fn parted_into(
    cuts: Cuts,
    horizons: Vec<Horizon>,
    scene: &Scene,
    setup: &Setup,
    needs: &Needs,
) -> Result<Parted, PartFault>
    requires valid { IsValid scene.now }
    requires cut { IsCutByNeeds scene.now setup.now needs.now.horizons.items needs.now.frames.items cuts }
    requires all { AreHorizonsBefore scene.now setup.now (frames_in needs.now.frames.items) cuts
        (length scene.now.layers) horizons.items }
    ensures { IsPartedOr scene.now setup.now (ArePartsOf scene.now setup.now) result }
{
    let frames = greatest_of(horizons.as_slice());
    if !is_little_work(cuts.cells(), frames, setup) {
        return Err(PartFault::NotApart);
    }
    Ok(Parted {
        cuts,
        horizons,
        frames,
    })
}
