// Whether a layer meets any cell.
ghost use Rattle.std.specs.Prelude.{◌↔◌, IsTrue};
ghost use Rattle.region_parts.specs.Joining.{MeetSomeCell, MeetsCell};

use crate::areas::{Area, has};
use region_split::Cuts;

/// Whether the first pixel of some cell lies in an area.
fn meets_cell(cuts: &Cuts, area: &Area) -> bool
    ensures { IsTrue result ↔ MeetsCell cuts.now area.now }
{
    for i in 0..cuts.cells() {
        let cell = cuts.cell(i);
        if has(area, cell.x, cell.y) {
            return true;
        }
    }
    false
}

/// Whether that of some cell lies in one of some areas. An area is never empty, so the first one tells.
pub(crate) fn meet_some_cell(cuts: &Cuts, areas: &[Area]) -> bool
    ensures { IsTrue result ↔ MeetSomeCell cuts.now areas.now }
{
    for area in areas {
        if meets_cell(cuts, area) {
            return true;
        }
    }
    false
}
