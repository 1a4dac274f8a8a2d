// The cascade, as the standards have it at small examples.
ghost use Rattle.page_values.specs.CascadeValues.{MatchValues, WeightValues, WinnerValues, NameValues, AnimationValues};

/// Which selectors match an element. It refuses a definition by which one of several classes is enough, and ids without
/// regard to case.
pub fn match_values()
    ensures { MatchValues }
{}

/// Which of two declarations wins. It refuses a sum of all simple selectors, and an attribute that beats what is
/// important.
pub fn weight_values()
    ensures { WeightValues }
{}

/// The winning colour among four that match. It refuses a definition that asks a winner to beat each declaration that
/// matches, itself among them.
pub fn winner_values()
    ensures { WinnerValues }
{}

/// Which set a name means. It refuses the number in the sheet where sets before it are left out.
pub fn name_values()
    ensures { NameValues }
{}

/// The animations of a list of names. It refuses a definition that leaves names out before the other lists are repeated.
pub fn animation_values()
    ensures { AnimationValues }
{}
