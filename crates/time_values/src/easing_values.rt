// Outputs of easings, as others give them.
ghost use Rattle.time_values.specs.EasingValues.{StepsAtOneSide, StepsAtBothOrNeither, CurvePoints};

/// Steps that jump at their ends, or at their starts. It refuses a definition by which an input right at a jump is
/// still before it.
pub fn steps_at_one_side()
    ensures { StepsAtOneSide }
{}

/// Steps that jump at both ends, or at neither. It refuses a definition with as many jumps as steps in each case.
pub fn steps_at_both_or_neither()
    ensures { StepsAtBothOrNeither }
{}

/// Points of two curves. It refuses a definition that takes the points from the far end, and one that mixes up the
/// columns and the heights.
pub fn curve_points()
    ensures { CurvePoints }
{}
