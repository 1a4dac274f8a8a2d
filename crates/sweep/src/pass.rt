// One pass over the frames of a scene.
ghost use Rattle.std.specs.Prelude.{◌≡◌, ◌+◌, ◌^◌, ◌<◌, ◌≤◌, ℕ, [], length, slice_index_or};
ghost use Rattle.cell_flags.specs.Flags.{AreAlikeCells};
ghost use Rattle.cell_groups.specs.Groups.{AreGroups};
ghost use Rattle.cell_rows.specs.CellRows.{AreRoomy, OnlyRows};
ghost use Rattle.cell_tints.specs.Tints.{cells_of};
ghost use Rattle.flash_count.specs.Rows.{StandsFor};
ghost use Rattle.page_model.specs.Horizon.{frames_for};
ghost use Rattle.page_model.specs.Time.{window_of};
ghost use Rattle.page_model.specs.ValidScene.{IsValid};
ghost use Rattle.row_pool.specs.Pools.{row_of};
ghost use Rattle.sweep.specs.Swept.{AreAlikeAt, AreAllBegun, ArePainted, ArePaintedBefore, HasPlaces, IsFoundIn, IsRoom, IsSwept, groups_in};

use crate::room::Room;
use crate::windows::{Found, look};
use cell_groups::Groups;
use cell_rows::{begin_rows, give_rows, push_frame, take_rows};
use cell_tints::{next_tints, tints_in_frame};
use page_model::{Scene, Setup};
use region_split::Cuts;
use std::mem;

/// Works out the tints of all groups of cells in a frame, from those of the frame before it where there is one.
fn paint(scene: &Scene, setup: &Setup, cuts: &Cuts, groups: &Groups, frame: u32, room: &mut Room)
    requires valid { IsValid scene.now }
    requires cells { AreAlikeAt scene.now setup.now cuts.now groups.now frame }
    requires places { HasPlaces (length scene.now.layers) (cells_of cuts.now) (groups_in groups.now) room.old }
    requires before { ArePaintedBefore scene.now setup.now cuts.now groups.now frame
        room.old.states.items room.old.tints.items }
    ensures painted { ArePainted scene.now setup.now cuts.now groups.now frame
        room.new.states.items room.new.tints.items }
    ensures places { HasPlaces (length scene.now.layers) (cells_of cuts.now) (groups_in groups.now) room.new }
    ensures pool { room.new.pool ≡ room.old.pool }
{
    let firsts = groups.firsts();
    if frame == 0 {
        tints_in_frame(
            scene,
            setup,
            cuts,
            firsts,
            frame,
            room.states.as_mut_slice(),
            room.tints.as_mut_slice(),
        );
        return;
    }
    next_tints(
        scene,
        setup,
        cuts,
        firsts,
        frame,
        room.states.as_slice(),
        room.next.as_mut_slice(),
        room.tints.as_mut_slice(),
    );
    mem::swap(&mut room.states, &mut room.next);
}

/// Sees all groups of cells in the next frame, and looks at the window that ends there.
fn step(
    scene: &Scene,
    setup: &Setup,
    cuts: &Cuts,
    groups: &Groups,
    frame: u32,
    found: Found,
    room: &mut Room,
) -> Found
    requires valid { IsValid scene.now }
    requires few { frame < 2 ^ 31 }
    requires cells { AreAlikeAt scene.now setup.now cuts.now groups.now frame }
    requires places { HasPlaces (length scene.now.layers) (cells_of cuts.now) (groups_in groups.now) room.old }
    requires before { ArePaintedBefore scene.now setup.now cuts.now groups.now frame
        room.old.states.items room.old.tints.items }
    requires swept { IsSwept scene.now setup.now cuts.now groups.now frame room.old.pool found }
    ensures painted { ArePainted scene.now setup.now cuts.now groups.now frame
        room.new.states.items room.new.tints.items }
    ensures swept { IsSwept scene.now setup.now cuts.now groups.now (frame + 1) room.new.pool result }
    ensures places { HasPlaces (length scene.now.layers) (cells_of cuts.now) (groups_in groups.now) room.new }
    ensures only { OnlyRows (groups_in groups.now) room.old.pool room.new.pool }
{
    let rate = setup.rate();
    paint(scene, setup, cuts, groups, frame, room);
    push_frame(
        &mut room.pool,
        rate,
        frame,
        room.tints.as_slice(),
        room.flags.as_mut_slice(),
    );
    if frame < u32::from(rate) {
        return found;
    }
    look(
        found,
        cuts,
        groups,
        room.flags.as_slice(),
        frame - u32::from(rate),
        room.marks.as_mut_slice(),
        room.work.as_mut_slice(),
    )
}

/// Goes through the frames of so many windows, up to the first window that has many sure flags.
fn pass(
    scene: &Scene,
    setup: &Setup,
    cuts: &Cuts,
    groups: &Groups,
    windows: u32,
    room: &mut Room,
) -> Found
    requires valid { IsValid scene.now }
    requires few { windows ≤ 100000 }
    requires cells { AreAlikeCells scene.now setup.now (frames_for setup.now windows) cuts.now }
    requires groups { AreGroups scene.now setup.now (frames_for setup.now windows) cuts.now groups.now }
    requires places { HasPlaces (length scene.now.layers) (cells_of cuts.now) (groups_in groups.now) room.old }
    requires roomy { AreRoomy (window_of setup.now) (groups_in groups.now) room.old.pool }
    requires begun { AreAllBegun (window_of setup.now) (groups_in groups.now) room.old.pool }
    ensures found { IsFoundIn scene.now setup.now cuts.now windows result }
    ensures roomy { AreRoomy (window_of setup.now) (groups_in groups.now) room.new.pool }
    ensures places { HasPlaces (length scene.now.layers) (cells_of cuts.now) (groups_in groups.now) room.new }
    ensures only { OnlyRows (groups_in groups.now) room.old.pool room.new.pool }
{
    let mut found = Found {
        sure: None,
        possible: None,
    };
    'frames: for frame in 0..windows + u32::from(setup.rate()) {
        if found.sure.is_some() {
            return found;
        }
        found = step(scene, setup, cuts, groups, frame, found, room);
    }
    found
}

/// What is found in so many windows. The rows that it takes are given back.
pub(crate) fn find(
    scene: &Scene,
    setup: &Setup,
    cuts: &Cuts,
    groups: &Groups,
    windows: u32,
    room: &mut Room,
) -> Found
    requires valid { IsValid scene.now }
    requires few { windows ≤ 100000 }
    requires cells { AreAlikeCells scene.now setup.now (frames_for setup.now windows) cuts.now }
    requires groups { AreGroups scene.now setup.now (frames_for setup.now windows) cuts.now groups.now }
    requires room { IsRoom (window_of setup.now) (length scene.now.layers) (cells_of cuts.now) (groups_in groups.now) room.old }
    ensures found { IsFoundIn scene.now setup.now cuts.now windows result }
    ensures room { IsRoom (window_of setup.now) (length scene.now.layers) (cells_of cuts.now) (groups_in groups.now) room.new }
    ensures free { room.new.pool.free ≡ room.old.pool.free }
{
    let rows = groups.firsts().len() as u32;
    take_rows(&mut room.pool, rows);
    begin_rows(&mut room.pool, rows, setup.rate());
    let found = pass(scene, setup, cuts, groups, windows, room);
    give_rows(&mut room.pool, rows);
    found
}
