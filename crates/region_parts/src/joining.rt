// The horizons of cells with that of one layer more.
ghost use Rattle.std.specs.Prelude.{false, ◌≡◌, ◌<◌, IsTrue, MatchOption, length};
ghost use Rattle.page_model.specs.Cells.{cells_between};
ghost use Rattle.period_frames.specs.Repeats.{IsShortHorizon};
ghost use Rattle.region_parts.specs.Joining.{AreJoinedBefore, IsJoinedWhere, IsTooLongSomewhere, IsTooLongWhere};
ghost use Rattle.region_parts.specs.Needs.{horizon_in};

use crate::areas::{Area, have};
use period_frames::Horizon;
use region_split::Cuts;

/// A cell's horizon with a layer's, where the layer meets the cell; none where that is too long.
fn joined_where(met: bool, one: Horizon, own: Horizon) -> Option<Horizon>
    requires cell { IsShortHorizon one }
    requires own { IsShortHorizon own }
    ensures { MatchOption result (IsTooLongWhere met one own) (IsJoinedWhere met one own) }
{
    if met { one.joined(own) } else { Some(one) }
}

/// Joins a layer's horizon with that of each cell whose first pixel lies in one of the layer's areas, and tells whether
/// none is too long.
pub(crate) fn join_met(horizons: &mut [Horizon], cuts: &Cuts, areas: &[Area], own: Horizon) -> bool
    requires one_each { length horizons.old ≡ cells_between cuts.now.xs cuts.now.ys }
    requires cells { (cell : _) → cell < cells_between cuts.now.xs cuts.now.ys
        → IsShortHorizon (horizon_in horizons.old cell) }
    requires own { IsShortHorizon own }
    ensures joined { IsTrue result
        → AreJoinedBefore cuts.now areas.now own (cells_between cuts.now.xs cuts.now.ys) horizons.old horizons.new }
    ensures long { result ≡ false → IsTooLongSomewhere cuts.now areas.now own horizons.old }
{
    for i in 0..cuts.cells() {
        let cell = cuts.cell(i);
        let met = have(areas, cell.x, cell.y);
        let Some(both) = joined_where(met, horizons[i as usize], own) else {
            return false;
        };
        horizons[i as usize] = both;
    }
    true
}
