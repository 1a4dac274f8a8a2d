// The separate judgement of a scene.
ghost use Rattle.std.specs.Prelude.{IfOk};
ghost use Rattle.page_model.specs.Horizon.{all_animations};
ghost use Rattle.page_model.specs.ValidScene.{IsValid};
ghost use Rattle.period_frames.specs.Needed.{NeedsMore};
ghost use Rattle.region_parts.specs.Parts.{ArePartsOf};
ghost use Rattle.apart_judge.specs.Judging.{IsJudging};

use crate::marking::most_marked;
use cell_flags::flags_of_cells;
use page_model::{NoMemory, Scene, Setup};
use region_parts::{PartFault, Parted};
use std::alloc::Global;

/// A quarter of the 341 by 256 rectangle, in pixels.
const QUARTER: u32 = 21_824;

/// The frames that the region needs which needs the most, where at most a quarter of the rectangle is possibly
/// flagged in a window of its own region, wherever the rectangle lies; `None` where more is, or where the regions
/// can't be looked at by themselves: exactly where the separate judgement doesn't hold of the scene. It takes
/// memory for the regions, and for their tints and flags in all these frames.
///
/// # Errors
///
/// `NoMemory` where memory is refused.
pub fn judge_apart(alloc: Global, scene: &Scene, setup: &Setup) -> Result<Option<u32>, NoMemory>
    requires valid { IsValid scene.now }
    requires beyond { NeedsMore setup.now (all_animations scene.now) }
    ensures { IfOk result (λ found. IsJudging scene.now setup.now found) }
{
    match Parted::of(alloc, scene, setup) {
        Ok(parted) => judge_parts(alloc, scene, setup, &parted),
        Err(PartFault::NotApart) => Ok(None),
        Err(PartFault::NoMemory) => Err(NoMemory),
    }
}

/// The same of a scene that is parted.
fn judge_parts(
    alloc: Global,
    scene: &Scene,
    setup: &Setup,
    parted: &Parted,
) -> Result<Option<u32>, NoMemory>
    requires valid { IsValid scene.now }
    requires beyond { NeedsMore setup.now (all_animations scene.now) }
    requires parts { ArePartsOf scene.now setup.now parted.now }
    ensures { IfOk result (λ found. IsJudging scene.now setup.now found) }
{
    let frames = parted.frames();
    let flags = flags_of_cells(alloc, scene, setup, parted.cuts(), frames)?;
    if most_marked(alloc, parted, flags.as_slice())? > QUARTER {
        return Ok(None);
    }
    Ok(Some(frames))
}
