// What holds of the pixels of a cell.
ghost use Rattle.cell_laws.specs.CellLaws.{BoxesCoverCellsAlike, CutsAreOne, PixelsLieInCells};

/// Each box covers two pixels of a cell alike in each frame that it is cut in. It refuses edges at the left and the
/// top of boxes alone.
pub fn boxes_cover_cells_alike()
    ensures { BoxesCoverCellsAlike }
{}

/// Each pixel of the viewport lies in a cell. It refuses edges without the first place, or without the end.
pub fn pixels_lie_in_cells()
    ensures { PixelsLieInCells }
{}

/// The same states, in the same frames of each box, cut at the same edges. It refuses edges in any order.
pub fn cuts_are_one()
    ensures { CutsAreOne }
{}
