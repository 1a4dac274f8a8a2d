// Cells of a small page, as another implementation gives them.
ghost use Rattle.page_values.specs.CellValues.{CellValues};
ghost use Rattle.page_values.specs.SlideValues.{SlideValues};

/// The edges of three boxes, of which one grows, and the number of cells. It refuses a definition that forgets the
/// viewport's ends, counts edges outside it, or looks at the last frame alone.
pub fn three_boxes_cut()
    ensures { CellValues }
{}

/// The edges of a box that slides, from its keyframes to its cells. It refuses a definition that cuts at the box's declared
/// place alone.
pub fn sliding_box_cuts()
    ensures { SlideValues }
{}
