// States as a kind of enclosure knows them.
ghost use Rattle.wide_laws.specs.LooseLaws.{ExactKindIsExact, LooseRunExists, LooseStateIsUnique, WideHoldsExact};

/// It is impossible that a window has no run of states by a kind: so neither possibly nor surely bad is said of nothing. Ends that have
/// to be reached at the least of the range too are refused.
pub fn loose_run_exists()
    ensures { LooseRunExists }
{}

/// A layer has at most one state by a kind in a frame. Bounds that need only hold the value, and not be the nearest, are refused.
pub fn loose_state_is_unique()
    ensures { LooseStateIsUnique }
{}

/// What the exact kind knows of a layer is its exact state. An exact kind that rounds at some scale of a curve is refused.
pub fn exact_kind_is_exact()
    ensures { ExactKindIsExact }
{}

/// What the wide kind knows of a layer holds its exact state. A lower end by the greatest
/// value of the set is refused.
pub fn wide_holds_exact()
    ensures { WideHoldsExact }
{}
