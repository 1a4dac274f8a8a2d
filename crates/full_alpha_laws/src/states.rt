// Layers of scenes whose alphas are full.
ghost use Rattle.full_alpha_laws.specs.StateLaws.{LooseStatesAreFormer, StatesAreFormer};

/// The exact state of a layer is that of the former text, with a cover of 255 where the layer has a colour. A state whose still
/// colours aren't kept is refused.
pub fn states_are_former()
    ensures { StatesAreFormer }
{}

/// So is the state by each kind of enclosure.
pub fn loose_states_are_former()
    ensures { LooseStatesAreFormer }
{}
