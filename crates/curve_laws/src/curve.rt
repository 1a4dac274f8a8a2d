// Laws of the eased value of a curve.
ghost use Rattle.curve_laws.specs.CurveLaws.{CurveIsSteady, ReachIsAntitone, ReachIsKept};
ghost use Rattle.curve_laws.specs.WrongCurves.{BareReachBreaks};

/// Columns never fall, a step of a point changes the height by at most 24 / M, and the point of an
/// input at a finer scale is one of those that follow the coarser point. Terms by which a curve
/// doesn't come to its end at 1 would be refused: it would fall there.
pub fn curve_is_steady()
    ensures { CurveIsSteady }
{}

/// What is reached at a scale is reached at each coarser one, and what is reached with room at a
/// scale is reached with room at each finer one, so room at one power of two is enough. A slack
/// that is too small for the curve's steepness, or that is the same at each scale, would be
/// refused.
pub fn reach_is_kept_at_finer_scales()
    ensures { ReachIsKept }
{}

/// A reach that is told by the height alone, without a slack, breaks that law.
pub fn bare_reach_breaks()
    ensures { BareReachBreaks }
{}

/// Who reaches a number reaches each smaller one, at a scale and at all. A definition with its
/// sides exchanged would be refused.
pub fn reach_is_antitone()
    ensures { ReachIsAntitone }
{}
