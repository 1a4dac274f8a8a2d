// Between which two keyframes a property is.
ghost use Rattle.fraction_laws.specs.IntervalLaws.{IntervalExists, IntervalIsComputed};

/// A set that names a property has an interval of it at each progress, at 0% and at 100% too. A first stop that lies strictly before
/// the progress is refused: at 0% there is none.
pub fn interval_exists()
    ensures { IntervalExists }
{}

/// The computed interval of a keyframe set is from the last stop that is reached to the one after it, and there is no other. An
/// interval from the first stop that is reached is refused.
pub fn interval_is_computed()
    ensures { IntervalIsComputed }
{}
