// Laws of the enclosures of eased values.
ghost use Rattle.curve_laws.specs.EnclosureLaws.{EndsAreNear, IntervalsNest, ReachesNest};

/// The exact value of a curve lies in the own interval, and that in the wide one. An interval of
/// the rounded height alone, without the slack of its scale, would be refused, and so would a wide
/// margin that is added on the wrong side.
pub fn intervals_nest()
    ensures { IntervalsNest }
{}

/// Each end of the own interval is less than 2^-16 away from the exact value. An interval of more than 2^14 parts of
/// 2^30 on either side would be refused.
pub fn ends_are_near()
    ensures { EndsAreNear }
{}

/// The kinds nest so for each easing and input.
pub fn reaches_nest()
    ensures { ReachesNest }
{}
