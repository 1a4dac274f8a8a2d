// Boundaries between the phases of an animation.
ghost use Rattle.time_values.specs.PhaseLaws.{PhaseBoundaries, WrongPhaseBreaks};

/// A boundary belongs to the later phase: an animation runs from the very moment at which its delay is over, and no longer
/// at the moment at which its active duration is. It refuses a boundary that belongs to the earlier phase.
pub fn phase_boundaries()
    ensures { PhaseBoundaries }
{}

/// Where boundaries belong to the earlier phase, an animation begins a frame late and ends a frame late.
pub fn wrong_phase_breaks()
    ensures { WrongPhaseBreaks }
{}
