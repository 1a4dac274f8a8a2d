// The law of how close enclosed distances of colours are to the exact one.
ghost use Rattle.tint_laws.specs.MarginLaws.{DistancesAreClose};

/// The least and the greatest squared distance of two colours, by the floors and the ceilings of
/// their coordinates in parts of 2^40, hold the exact one between them, and each is less than
/// 2^-24 away from it.
pub fn distances_are_close()
    ensures { DistancesAreClose }
{}
