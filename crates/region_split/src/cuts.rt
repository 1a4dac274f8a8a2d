// The edges of a scene both ways, and the cells between them.
ghost use Rattle.std.specs.Prelude.{◌≡◌, ◌+◌, ◌-◌, ◌<◌, ◌≤◌, ◌∷◌, [], IfOk, length, slice_index};
ghost use Rattle.page_model.specs.Cells.{cells_between};
ghost use Rattle.page_model.specs.ValidScene.{IsValid};
ghost use Rattle.region_split.specs.Cutting.{AreListedBoth, IsCutInto, IsCutting, IsListedCutting, cell_of, whole_edges};
ghost use Rattle.region_split.specs.Marks.{HasFramesOfEach, frames_in};
ghost use Rattle.region_split.specs.Sound.{AreSound};

use crate::listing::listed;
use crate::marks::{Marks, marks_of};
use crate::types::{CutFault, Rect};
use page_model::{NoMemory, Scene, Setup};
use std::alloc::Global;
use std::marker::Model;

/// The most that cells times frames may be.
const MOST_WORK: u64 = 4_194_304;

/// The most layers that a valid scene has.
const MOST_LAYERS: usize = 65;

/// The places between two neighbouring edges.
#[derive(Clone, Copy)]
struct Band {
    start: u16,
    size: u16,
}

/// The edges that boxes cut into the viewport, both ways.
#[derive(Drop)]
pub struct Cuts {
    xs: Vec<u16>,
    ys: Vec<u16>,
}

impl Model for Cuts {
    ghost use Rattle.region_split.specs.Cutting.{AreSoundBoth, Edges};

    ghost Value = { Edges };

    ghost view = { λ c. record { xs = c.xs.items; ys = c.ys.items } };

    ghost invariant = { λ c. AreSoundBoth c.xs.items c.ys.items };
}

impl Cuts {
    /// The edges of a scene in so many frames: each column and each row inside the viewport at which a
    /// box may begin or end in one of them, and the viewport's ends. A hidden box has edges too.
    ///
    /// # Errors
    ///
    /// `Work` with the number of cells, exactly where cells times frames are more than 4,194,304;
    /// `NoMemory` where memory is refused.
    pub fn of(alloc: Global, scene: &Scene, setup: &Setup, frames: u32) -> Result<Cuts, CutFault>
        requires valid { IsValid scene.now }
        requires some { 1 ≤ frames }
        requires limit { frames ≤ 100241 }
        ensures { IsCutting scene.now setup.now frames result }
    {
        let each = [frames; MOST_LAYERS];
        let marks = marks_of(scene, setup, &each);
        cut_marked(alloc, &marks, setup, frames)
    }

    /// The edges of a scene where each box is looked at in its own frames, of which a list has the
    /// number of each layer.
    ///
    /// # Errors
    ///
    /// `NoMemory` where memory is refused.
    pub fn every(
        alloc: Global,
        scene: &Scene,
        setup: &Setup,
        frames: &[u32],
    ) -> Result<Cuts, NoMemory>
        requires valid { IsValid scene.now }
        requires frames { HasFramesOfEach scene.now frames.now }
        ensures { IfOk result (IsCutInto scene.now setup.now (frames_in frames.now)) }
    {
        let marks = marks_of(scene, setup, frames);
        edges_at(alloc, &marks, setup)
    }

    /// The whole viewport as one cell.
    ///
    /// # Errors
    ///
    /// `NoMemory` where memory is refused.
    pub fn whole(alloc: Global, setup: &Setup) -> Result<Cuts, NoMemory>
        ensures { IfOk result (λ cuts. cuts ≡ whole_edges setup.now) }
    {
        let xs = ends(alloc, setup.width())?;
        let ys = ends(alloc, setup.height())?;
        Ok(Cuts { xs, ys })
    }

    /// How many cells there are.
    pub fn cells(&self) -> u32
        ensures { result ≡ cells_between self.now.xs self.now.ys }
    {
        cells_of(&self.xs, &self.ys)
    }

    /// The cell of a number: cells stand row by row from the top left.
    pub fn cell(&self, i: u32) -> Rect
        requires { i < cells_between self.now.xs self.now.ys }
        ensures { result ≡ cell_of self.now.xs self.now.ys i }
    {
        let across = self.xs.len() - 1;
        let column = band_at(&self.xs, i as usize % across);
        let row = band_at(&self.ys, i as usize / across);
        Rect {
            x: column.start,
            y: row.start,
            width: column.size,
            height: row.size,
        }
    }

    /// The columns at which cells begin or end, in rising order.
    pub fn xs(&self) -> &[u16]
        ensures value { result.now ≡ self.now.xs }
        ensures sound { AreSound result.now }
    {
        self.xs.as_slice()
    }

    /// The rows at which cells begin or end, in rising order.
    pub fn ys(&self) -> &[u16]
        ensures value { result.now ≡ self.now.ys }
        ensures sound { AreSound result.now }
    {
        self.ys.as_slice()
    }
}

/// The edges at marked places.
fn edges_at(alloc: Global, marks: &Marks, setup: &Setup) -> Result<Cuts, NoMemory>
    ensures { IfOk result (λ cuts. AreListedBoth marks.now.columns marks.now.rows setup.now cuts.xs cuts.ys) }
{
    let xs = listed(alloc, &marks.columns, setup.width())?;
    let ys = listed(alloc, &marks.rows, setup.height())?;
    Ok(Cuts { xs, ys })
}

/// The edges at marked places, where the cells between them times the frames aren't too many.
fn cut_marked(alloc: Global, marks: &Marks, setup: &Setup, frames: u32) -> Result<Cuts, CutFault>
    requires { frames ≤ 100241 }
    ensures { IsListedCutting marks.now.columns marks.now.rows setup.now frames result }
{
    let cuts = edges_at(alloc, marks, setup)?;
    let cells = cuts.cells();
    if u64::from(cells) * u64::from(frames) > MOST_WORK {
        return Err(CutFault::Work { cells });
    }
    Ok(cuts)
}

/// The two ends of a side of this size.
fn ends(alloc: Global, size: u16) -> Result<Vec<u16>, NoMemory>
    ensures { IfOk result (λ edges. edges.items ≡ 0 ∷ (size ∷ [])) }
{
    let mut edges = Vec::with_capacity(alloc, 2)?;
    edges.push(0)?;
    edges.push(size)?;
    Ok(edges)
}

/// How many cells lie between edges.
fn cells_of(xs: &[u16], ys: &[u16]) -> u32
    requires columns { AreSound xs.now }
    requires rows { AreSound ys.now }
    ensures { result ≡ cells_between xs.now ys.now }
{
    ((xs.len() - 1) * (ys.len() - 1)) as u32
}

/// Where the band between two neighbouring edges begins, and how long it is.
fn band_at(edges: &[u16], number: usize) -> Band
    requires sound { AreSound edges.now }
    requires inside { number + 1 < length edges.now }
    ensures start { result.start ≡ slice_index edges.now number }
    ensures size { result.size ≡ slice_index edges.now (number + 1) - slice_index edges.now number }
{
    Band {
        start: edges[number],
        size: edges[number + 1] - edges[number],
    }
}
