// A scene that is judged at a setup.
ghost use Rattle.std.specs.Prelude.{◌≡◌, ◌≤◌};
ghost use Rattle.page_model.specs.Horizon.{IsNeeded, all_animations, frames_for};
ghost use Rattle.page_model.specs.ValidScene.{IsValid};
ghost use Rattle.period_frames.specs.Needed.{AreEnough, NeedsMore};
ghost use Rattle.region_split.specs.Cutting.{IsCut};
ghost use Rattle.sweep.specs.Verdicts.{IsOpening, IsReady, IsVerdictBy};

use crate::pass::find;
use crate::room::Room;
use crate::types::{OpenFault, Verdict};
use apart_judge::judge_apart;
use cell_groups::Groups;
use page_model::{Scene, Setup};
use period_frames::needed;
use region_split::{CutFault, Cuts};
use std::alloc::Global;
use std::marker::Model;

/// A scene and a setup, the cells and their groups, how many windows have to be looked at, and the room for one pass
/// over them. A scene whose regions were judged by themselves has been judged when it is opened: it passes.
#[derive(Drop)]
pub struct Sweep {
    scene: Scene,
    setup: Setup,
    cuts: Cuts,
    groups: Groups,
    needed: u32,
    room: Room,
    apart: bool,
}

impl Model for Sweep {
    ghost use Rattle.std.specs.Prelude.{count_by, length};
    ghost use Rattle.sweep.specs.Swept.{IsSweeping};
    ghost use Rattle.sweep.specs.Verdicts.{Judged};

    ghost Value = { Judged };

    ghost view = { λ s. record {
      scene = s.scene;
      setup = s.setup;
      cuts = s.cuts;
      needed = s.needed;
      rows = length s.room.pool.rows;
      free = count_by (λ is_free. is_free) s.room.pool.free;
      apart = s.apart;
    } };

    ghost invariant = { λ s. IsSweeping s.apart s.scene s.setup s.needed s.cuts s.groups s.room };
}

impl Sweep {
    /// Takes a scene to be judged, and all memory for that.
    ///
    /// # Errors
    ///
    /// `Frames` exactly where more than 100,000 windows have to be looked at, and the regions can't be judged by
    /// themselves; `Work` exactly where cells times the frames of these windows are more than 4,194,304; `NoMemory`
    /// where memory is refused.
    pub fn open(alloc: Global, scene: Scene, setup: Setup) -> Result<Sweep, OpenFault>
        requires { IsValid scene }
        ensures { IsOpening scene setup result }
    {
        let Some(horizon) = needed(&scene, &setup) else {
            return open_apart(alloc, scene, setup);
        };
        let needed = horizon.settled + horizon.period;
        let frames = needed + u32::from(setup.rate()) + 1;
        match Cuts::of(alloc, &scene, &setup, frames) {
            Ok(cuts) => open_whole(alloc, scene, setup, cuts, needed),
            Err(CutFault::Work { cells }) => Err(OpenFault::Work { cells, frames }),
            Err(CutFault::NoMemory) => Err(OpenFault::NoMemory),
        }
    }

    /// Judges the scene, and takes no memory: `Fail` with the first window that is surely bad and the first
    /// position where it is so most, else `Undecided` with the first that is possibly bad, else `Pass`, and then
    /// the scene is safe for ever. It stays as it was, so a second run tells the same.
    pub fn run(&mut self) -> Verdict
        requires { IsReady self.old }
        ensures verdict { IsVerdictBy self.old.scene self.old.setup self.old.needed self.old.apart result }
        ensures kept { self.new ≡ self.old }
    {
        if self.apart {
            return Verdict::Pass {
                frames: self.needed,
                apart: true,
            };
        }
        find(
            &self.scene,
            &self.setup,
            &self.cuts,
            &self.groups,
            self.needed,
            &mut self.room,
        )
        .verdict(self.needed)
    }

    /// How many rows there are: one for each cell.
    pub fn rows(&self) -> u32
        ensures { result ≡ self.now.rows }
    {
        self.room.pool.rows()
    }

    /// How many of them are free.
    pub fn free_rows(&self) -> u32
        ensures { result ≡ self.now.free }
    {
        self.room.pool.free()
    }

    /// Gives the scene back.
    pub fn into_scene(self) -> Scene
        ensures { result ≡ self.scene }
    {
        self.scene
    }

    /// The scene that was handed in.
    pub fn scene(&self) -> &Scene
        ensures { result.now ≡ self.now.scene }
    {
        &self.scene
    }

    /// The setup that was handed in.
    pub fn setup(&self) -> &Setup
        ensures { result.now ≡ self.now.setup }
    {
        &self.setup
    }

    /// The edges of the cells.
    pub fn cuts(&self) -> &Cuts
        ensures { result.now ≡ self.now.cuts }
    {
        &self.cuts
    }
}

/// A sweep over the windows that have to be looked at, which aren't too many.
fn open_whole(
    alloc: Global,
    scene: Scene,
    setup: Setup,
    cuts: Cuts,
    needed: u32,
) -> Result<Sweep, OpenFault>
    requires valid { IsValid scene }
    requires is_needed { IsNeeded setup (all_animations scene) needed }
    requires few { needed ≤ 100000 }
    requires for_ever { AreEnough scene setup needed }
    requires cut { IsCut scene setup (frames_for setup needed) cuts }
    ensures { IsOpening scene setup result }
{
    let groups = Groups::of(
        alloc,
        &scene,
        &setup,
        &cuts,
        needed + u32::from(setup.rate()) + 1,
    )?;
    let room = Room::open(
        alloc,
        scene.layers.len(),
        cuts.cells(),
        groups.firsts().len(),
        setup.rate(),
    )?;
    Ok(Sweep {
        scene,
        setup,
        cuts,
        groups,
        needed,
        room,
        apart: false,
    })
}

/// A sweep of a scene that was judged region by region, as it needs too many frames, or `Frames` where it can't be.
fn open_apart(alloc: Global, scene: Scene, setup: Setup) -> Result<Sweep, OpenFault>
    requires valid { IsValid scene }
    requires beyond { NeedsMore setup (all_animations scene) }
    ensures { IsOpening scene setup result }
{
    let Some(frames) = judge_apart(alloc, &scene, &setup)? else {
        return Err(OpenFault::Frames);
    };
    let cuts = Cuts::whole(alloc, &setup)?;
    let groups = Groups::none(alloc);
    let room = Room::open(alloc, scene.layers.len(), 0, 0, setup.rate())?;
    Ok(Sweep {
        scene,
        setup,
        cuts,
        groups,
        needed: frames,
        room,
        apart: true,
    })
}
