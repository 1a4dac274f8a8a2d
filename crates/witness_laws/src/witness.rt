// Laws of what a witness shows.
ghost use Rattle.witness_laws.specs.WitnessLaws.{AcceptedIsBad, PartsFitTheRectangle, WitnessesFlash};
ghost use Rattle.witness_laws.specs.WrongConditions.{OneConditionBreaks};

/// Parts that lie in the 341 by 256 rectangle and share no pixel have at most its pixels in all. Conditions by which a part
/// may lie outside, or two may share a pixel, would be refused.
pub fn parts_fit_the_rectangle()
    ensures { PartsFitTheRectangle }
{}

/// Parts that may share pixels, and parts that may lie outside, can have more pixels than the rectangle: so both conditions are needed.
pub fn one_condition_breaks()
    ensures { OneConditionBreaks }
{}

/// By any tints, where all nine conditions hold the window is surely bad at the stated position. Conditions that let frames
/// lie outside the window, or ask for seven changes, would be refused.
pub fn witnesses_flash()
    ensures { WitnessesFlash }
{}

/// In a valid scene the window of a witness that is accepted is bad at the stated position.
pub fn accepted_is_bad()
    ensures { AcceptedIsBad }
{}
