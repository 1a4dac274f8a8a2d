// Laws of the states of a layer.
ghost use Rattle.tint_laws.specs.StateNestLaws.{KindsOfStatesNest, LooseStatesHoldExact};

/// In a valid scene, a layer's exact state lies in its loose state by each kind: each value between
/// its two ends, and a box that is surely shown, or surely not, is as it says. A lower end that is
/// rounded up would be refused.
pub fn loose_states_hold_exact()
    ensures { LooseStatesHoldExact }
{}

/// A layer's loose state by the own kind lies in that by the wide kind, both of its ends, in their
/// order. A wide kind whose values of a curve are fewer than those of the own interval would be
/// refused.
pub fn kinds_of_states_nest()
    ensures { KindsOfStatesNest }
{}
