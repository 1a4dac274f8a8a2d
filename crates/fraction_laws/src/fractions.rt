// Fractions that a scene's times make.
ghost use Rattle.fraction_laws.specs.FractionLaws.{DistanceIsPart, DistanceIsSmall, ProgressIsPart, ProgressIsSmall, SteppedIsPart};
ghost use Rattle.fraction_laws.specs.OverallLaws.{OverallIsQuotient};

/// A progress is a number from 0 to 1, of any animation in any frame. An overall progress in its place is refused.
pub fn progress_is_part()
    ensures { ProgressIsPart }
{}

/// So is the distance between two keyframes. An interval between two stops that are both reached is refused: the distance could be
/// past 1.
pub fn distance_is_part()
    ensures { DistanceIsPart }
{}

/// So is the output of steps. A step that jumps at the start, with no word of the last jump, is refused: at the end it would be past 1.
pub fn stepped_is_part()
    ensures { SteppedIsPart }
{}

/// A progress in the limits of a scene has a denominator of at most 24,000,000,000, so that it fits in 64 bits. A denominator that grows
/// with the frame is refused.
pub fn progress_is_small()
    ensures { ProgressIsSmall }
{}

/// A distance has a denominator of at most 10,000 times the progress's. Offsets in thousandths of a percent are refused.
pub fn distance_is_small()
    ensures { DistanceIsSmall }
{}

/// The overall progress of an animation that takes time is its active time over its duration, in each frame with an effect. The count
/// in its place before the end is refused.
pub fn overall_is_quotient()
    ensures { OverallIsQuotient }
{}
