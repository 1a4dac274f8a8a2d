// Saturated red and its distance from other colours, as another implementation gives them.
ghost use Rattle.page_values.specs.RedValues.{ChromaticityValues, SaturatedEdge, FarEdge, RedChanges};

/// Coordinates of white, black, grey, red and orange. It refuses a definition by which black has none.
pub fn chromaticity_values()
    ensures { ChromaticityValues }
{}

/// Colours on both sides of saturation. It refuses a definition by which black is saturated, and one that takes channels
/// for light.
pub fn saturated_edge()
    ensures { SaturatedEdge }
{}

/// Colours a little more and a little less than 0.2 apart. It refuses a distance that isn't squared, and a threshold of
/// 0.04 for the distance itself.
pub fn far_edge()
    ensures { FarEdge }
{}

/// Changes into red and out of it. It refuses a definition that forgets the distance, and one that takes the other
/// colour for the saturated one.
pub fn red_changes()
    ensures { RedChanges }
{}
