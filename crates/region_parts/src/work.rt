// How much work the cells may be.
ghost use Rattle.std.specs.Prelude.{◌↔◌, ◌*◌, ◌≤◌, IsTrue};
ghost use Rattle.page_model.specs.Cells.{work_limit};
ghost use Rattle.page_model.specs.Horizon.{frames_for};

use page_model::Setup;

/// The most that cells times frames may be.
const MOST_WORK: u64 = 4_194_304;

/// Whether so many cells may need so many frames.
pub(crate) fn is_little_work(cells: u32, needed: u32, setup: &Setup) -> bool
    requires { needed ≤ 100000 }
    ensures { IsTrue result ↔ (cells * frames_for setup.now needed ≤ work_limit) }
{
    let frames = needed + u32::from(setup.rate()) + 1;
    u64::from(cells) * u64::from(frames) <= MOST_WORK
}
