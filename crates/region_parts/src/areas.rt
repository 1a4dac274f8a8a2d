// Where a layer may be seen.
ghost use Rattle.std.specs.Prelude.{pos, ◌↔◌, ◌≡◌, ◌<◌, ◌≤◌, ◌≤ℤ◌, IfOk, IsSome, IsTrue, MatchOption, length};
ghost use Rattle.std.specs.List.{list_any};
ghost use Rattle.page_model.specs.Colour.{body_colour};
ghost use Rattle.page_model.specs.Enclosure.{surely_not};
ghost use Rattle.page_model.specs.Slot as slots;
ghost use Rattle.page_model.specs.ValidScene.{IsValid};
ghost use Rattle.frame_state.specs.States.{IsInSlot, IsInSlots, loose_as, state_as, sureness_of};
ghost use Rattle.region_parts.specs.Meeting.{AreAreasOf, IsAreaOf, IsBoxAreasOf, IsNowhere, IsReach, has_pixel};

use fix_span::Loose;
use frame_state::{LayerState, Shown, layer_at};
use page_model::{NoMemory, Scene, Setup};
use std::alloc::Global;

/// A part of the viewport: from a column and a row on, up to others.
#[derive(Clone, Copy)]
pub(crate) struct Area {
    pub(crate) left: u16,
    pub(crate) right: u16,
    pub(crate) top: u16,
    pub(crate) bottom: u16,
}

/// From a place of a side on, up to another.
#[derive(Clone, Copy)]
pub(crate) struct Reach {
    start: u16,
    end: u16,
}

/// Whether a pixel lies in an area.
pub(crate) fn has(area: &Area, x: u16, y: u16) -> bool
    ensures { result ≡ has_pixel x y area.now }
{
    area.left <= x && x < area.right && area.top <= y && y < area.bottom
}

/// Whether it lies in one of some areas.
pub(crate) fn have(areas: &[Area], x: u16, y: u16) -> bool
    ensures { result ≡ list_any (has_pixel x y) areas.now }
{
    areas.iter().any(|area| has(area, x, y))
}

/// The first place of a side of this size that isn't before another, or the side's end.
fn first_from(place: i32, size: u16) -> u16
    ensures { (at : _) → at < size → (place ≤ℤ pos at ↔ result ≤ at) }
{
    place.max(0).min(i32::from(size)) as u16
}

/// Where on a side of this size a box may be that begins and reaches so far.
fn reach_of(from: Loose, extent: Loose, size: u16) -> Reach
    requires from { IsInSlot slots.position (loose_as from) }
    requires extent { IsInSlot slots.extent (loose_as extent) }
    ensures { IsReach size (loose_as from) (loose_as extent) result.start result.end }
{
    Reach {
        start: first_from(from.lo, size),
        end: first_from(from.hi + extent.hi, size),
    }
}

/// Whether a layer is surely not shown.
fn is_hidden(shown: Shown) -> bool
    ensures { IsTrue result ↔ (sureness_of shown ≡ surely_not) }
{
    match shown {
        Shown::No => true,
        Shown::Yes | Shown::Maybe => false,
    }
}

/// Where a layer of this state may be seen, none where nowhere.
fn area_of(state: &LayerState, setup: &Setup) -> Option<Area>
    requires { IsInSlots (state_as state.now) }
    ensures { MatchOption result (IsNowhere setup.now (state_as state.now)) (IsAreaOf setup.now (state_as state.now)) }
{
    if is_hidden(state.shown) {
        return None;
    }
    let across = reach_of(state.left, state.width, setup.width());
    let down = reach_of(state.top, state.height, setup.height());
    if across.end <= across.start || down.end <= down.start {
        return None;
    }
    Some(Area {
        left: across.start,
        right: across.end,
        top: down.start,
        bottom: down.end,
    })
}

/// Where a layer may be seen in so many frames, frame by frame.
fn areas_below(
    alloc: Global,
    scene: &Scene,
    setup: &Setup,
    number: u16,
    frames: u32,
) -> Result<Vec<Area>, NoMemory>
    requires valid { IsValid scene.now }
    requires there { number < length scene.now.layers }
    ensures { IfOk result (λ areas. IsBoxAreasOf scene.now setup.now number frames areas.items) }
{
    let mut areas = Vec::new(alloc);
    for k in 0..frames {
        let state = layer_at(scene, setup, u64::from(k), number);
        if let Some(area) = area_of(&state, setup) {
            areas.push(area)?;
        }
    }
    Ok(areas)
}

/// Whether the body has a colour.
fn has_colour(scene: &Scene) -> bool
    requires { IsValid scene.now }
    ensures { IsTrue result ↔ IsSome (body_colour scene.now) }
{
    scene.layers.as_slice()[0].colour.is_some()
}

/// Where a layer may be seen in so many frames: the body everywhere or nowhere, whatever the frames are.
pub(crate) fn areas_of(
    alloc: Global,
    scene: &Scene,
    setup: &Setup,
    number: u16,
    frames: u32,
) -> Result<Vec<Area>, NoMemory>
    requires valid { IsValid scene.now }
    requires there { number < length scene.now.layers }
    ensures { IfOk result (λ areas. AreAreasOf scene.now setup.now number frames areas.items) }
{
    if number != 0 {
        return areas_below(alloc, scene, setup, number, frames);
    }
    let mut areas = Vec::new(alloc);
    if has_colour(scene) {
        areas.push(Area {
            left: 0,
            right: setup.width(),
            top: 0,
            bottom: setup.height(),
        })?;
    }
    Ok(areas)
}
