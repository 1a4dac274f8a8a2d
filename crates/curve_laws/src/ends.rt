// The ends of a curve, and the numbers that fractions are.
ghost use Rattle.curve_laws.specs.EndLaws.{CountsByNumber, CurveEnds};

/// A curve begins at 0 and ends at 1, exactly. A curve known at one scale only, with its slack, is refused.
pub fn curve_ends()
    ensures { CurveEnds }
{}

/// What counts of a distance is its number, not by which numerator and denominator it is given. Steps that are counted in the
/// numerator alone are refused.
pub fn counts_by_number()
    ensures { CountsByNumber }
{}
