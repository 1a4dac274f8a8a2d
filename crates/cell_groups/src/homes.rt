// Where each box is in the frames that are looked at.
ghost use Rattle.std.specs.Prelude.{Some, ◌≡◌, ◌⊎◌, ◌<◌, ◌≤ℤ◌, IfOk, length, slice_get};
ghost use Rattle.page_model.specs.declared.scene.Layer.{Layer as Element};
ghost use Rattle.page_model.specs.Slot as slots;
ghost use Rattle.page_model.specs.ValidScene.{IsValid};
ghost use Rattle.frame_state.specs.Places.{IsPlaceInSlots, place_as};
ghost use Rattle.frame_state.specs.States.{IsInSlot, loose_as};
ghost use Rattle.cell_groups.specs.declared.homes.Home.TheVariants as home;
ghost use Rattle.cell_groups.specs.Homes.{AreHomes, HoldsArea, IsAtHome, IsHomeOf, IsSideOf};

use fix_span::Loose;
use frame_state::{Place, place_at};
use page_model::{NoMemory, Scene, Setup};
use region_split::{frames_of, may_move};
use std::alloc::Global;

/// Where a box may begin on a side of the viewport, and where it may end.
#[derive(Clone, Copy)]
pub(crate) struct Side {
    pub(crate) begin: Loose,
    pub(crate) end: Loose,
}

/// A part of the plane: from a column and a row on, up to others.
#[derive(Clone, Copy)]
pub(crate) struct Area {
    pub(crate) left: i32,
    pub(crate) right: i32,
    pub(crate) top: i32,
    pub(crate) bottom: i32,
}

/// Where a box is.
#[derive(Clone, Copy)]
pub(crate) enum Home {
    /// It is between these sides in each frame.
    Fixed { across: Side, down: Side },
    /// It moves or grows, and never leaves this area.
    Within(Area),
}

/// Where a box may begin and end that begins and reaches so far.
fn side_of(from: Loose, extent: Loose) -> Side
    requires from { IsInSlot slots.position (loose_as from) }
    requires extent { IsInSlot slots.extent (loose_as extent) }
    ensures { IsSideOf (loose_as from) (loose_as extent) result }
{
    Side {
        begin: from,
        end: Loose {
            lo: from.lo + extent.lo,
            hi: from.hi + extent.hi,
        },
    }
}

/// The home of a box that stays in this place.
fn fixed_at(place: Place) -> Home
    requires { IsPlaceInSlots (place_as place) }
    ensures { IsAtHome (place_as place) result }
{
    Home::Fixed {
        across: side_of(place.left, place.width),
        down: side_of(place.top, place.height),
    }
}

/// The lesser of two numbers.
fn lesser(one: i32, other: i32) -> i32
    ensures one { result ≤ℤ one }
    ensures other { result ≤ℤ other }
    ensures either { (result ≡ one) ⊎ (result ≡ other) }
{
    if one < other { one } else { other }
}

/// The greater of two numbers.
fn greater(one: i32, other: i32) -> i32
    ensures one { one ≤ℤ result }
    ensures other { other ≤ℤ result }
    ensures either { (result ≡ one) ⊎ (result ≡ other) }
{
    if one < other { other } else { one }
}

/// An area with all that a box in this place may cover.
fn grown(area: Area, place: Place) -> Area
    requires { IsPlaceInSlots (place_as place) }
    ensures home { IsAtHome (place_as place) (home.Within result) }
    ensures kept { HoldsArea area result }
{
    let across = side_of(place.left, place.width);
    let down = side_of(place.top, place.height);
    Area {
        left: lesser(area.left, across.begin.lo),
        right: greater(area.right, across.end.hi),
        top: lesser(area.top, down.begin.lo),
        bottom: greater(area.bottom, down.end.hi),
    }
}

/// No area at all, which any place makes greater: a box that has no frame is nowhere.
const NOWHERE: Area = Area {
    left: 16_384,
    right: -16_384,
    top: 16_384,
    bottom: -16_384,
};

/// The area that a box never leaves in so many frames.
fn area_of(scene: &Scene, setup: &Setup, number: u16, frames: u32) -> Area
    requires valid { IsValid scene.now }
    requires there { number < length scene.now.layers }
    ensures { (l : Element) → slice_get scene.now.layers number ≡ Some l
        → IsHomeOf scene.now setup.now frames l (home.Within result) }
{
    let mut area = NOWHERE;
    for k in 0..frames {
        area = grown(area, place_at(scene, setup, u64::from(k), number));
    }
    area
}

/// Where a box is in so many frames.
fn home_of(scene: &Scene, setup: &Setup, number: u16, frames: u32) -> Home
    requires valid { IsValid scene.now }
    requires there { number < length scene.now.layers }
    ensures { (l : Element) → slice_get scene.now.layers number ≡ Some l
        → IsHomeOf scene.now setup.now frames l result }
{
    if may_move(scene, number) {
        let enough = frames_of(scene, setup, number, frames);
        return Home::Within(area_of(scene, setup, number, enough));
    }
    fixed_at(place_at(scene, setup, 0, number))
}

/// How many layers there are.
fn layers_of(scene: &Scene) -> u16
    requires { IsValid scene.now }
    ensures { result ≡ length scene.now.layers }
{
    scene.layers.len() as u16
}

/// Where each box is in so many frames. The first layer is the body's, which is no box.
pub(crate) fn homes_of(
    alloc: Global,
    scene: &Scene,
    setup: &Setup,
    frames: u32,
) -> Result<Vec<Home>, NoMemory>
    requires valid { IsValid scene.now }
    ensures { IfOk result (λ homes. AreHomes scene.now setup.now frames homes.items) }
{
    let mut homes = Vec::new(alloc);
    for number in 1..layers_of(scene) {
        homes.push(home_of(scene, setup, number, frames))?;
    }
    Ok(homes)
}
