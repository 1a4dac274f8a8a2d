// How many frames have to be looked at: laws of settled frames, terms and periods.
ghost use Rattle.horizon_laws.specs.HorizonLaws.{NothingNeedsOneFrame, HorizonExists, HorizonIsUnique, TermsAreLeast, TurningTakesTwice, PeriodIsLeastCommonMultiple};

/// No animation needs one frame: it has settled at frame 0 and repeats after one. It refuses a definition by which a still
/// page needs no frame, so that it would pass without being looked at.
pub fn nothing_needs_one_frame()
    ensures { NothingNeedsOneFrame }
{}

/// Animations have a settled frame and a period. It refuses a definition by which an animation that is paused, or has no
/// duration, never settles.
pub fn horizon_exists()
    ensures { HorizonExists }
{}

/// Animations have one settled frame, one period and one number of frames that they need. It refuses a definition by
/// which any later frame is as good, so that the least would not be told.
pub fn horizon_is_unique()
    ensures { HorizonIsUnique }
{}

/// A term exists, is unique, is the cycle over its greatest common divisor with a frame, and divides each whole number
/// of cycles. It refuses a definition by which 0 frames are a whole number of cycles.
pub fn terms_are_least()
    ensures { TermsAreLeast }
{}

/// An animation that turns round has the term of one that does not and takes twice as long. It refuses a cycle that
/// isn't doubled.
pub fn turning_takes_twice()
    ensures { TurningTakesTwice }
{}

/// The period exists, and is the least common multiple of the terms. It refuses the product of the terms, and their
/// greatest.
pub fn period_is_least_common_multiple()
    ensures { PeriodIsLeastCommonMultiple }
{}
