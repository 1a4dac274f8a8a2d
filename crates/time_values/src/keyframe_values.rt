// Intervals between keyframes, as the standard has them.
ghost use Rattle.time_values.specs.KeyframeValues.{MissingEnds, LastReached, RelationAgrees, WrongKeyframesBreak};

/// Where no keyframe stands at an end, the element's own value does. It refuses a definition by which a property
/// waits for its first keyframe.
pub fn missing_ends()
    ensures { MissingEnds }
{}

/// The interval begins at the last keyframe that is reached, and has that one's easing. It refuses a definition by
/// which a keyframe is reached only behind its offset, and one with no interval at 100%.
pub fn last_reached()
    ensures { LastReached }
{}

/// The relation, which computes nothing, holds of the same intervals.
pub fn interval_relation_agrees()
    ensures { RelationAgrees }
{}

/// By the easing of the later keyframe the same edges would move otherwise.
pub fn wrong_keyframes_break()
    ensures { WrongKeyframesBreak }
{}
