// What is computed where no easing is a curve.
ghost use Rattle.safety_laws.specs.ComputedLaws.{ChannelIsComputed, RunIsComputed, SafetyIsComputed, ShownIsComputed, SlotIsComputed, StateIsComputed};

/// By `linear` and `steps` the value of a slot is the fraction on its way, rounded half up and held in the range. A slot that is
/// rounded half down is refused.
pub fn slot_is_computed()
    ensures { SlotIsComputed }
{}

/// By `linear` and `steps` the value of a channel is that of the premultiplied colours. A channel that goes from its one value to the
/// other without regard to the alpha is refused.
pub fn channel_is_computed()
    ensures { ChannelIsComputed }
{}

/// By `linear` and `steps` a layer on its way between visible and hidden is visible strictly between 0 and 1. A definition that
/// takes the nearer of the two is refused.
pub fn shown_is_computed()
    ensures { ShownIsComputed }
{}

/// Without curves a layer's exact state in a frame is the one that is computed. A state whose opacity is rounded before it is
/// multiplied by 255 is refused.
pub fn state_is_computed()
    ensures { StateIsComputed }
{}

/// Without curves the computed states of all layers in all frames are a run of exact states, in each window. A run that asks for
/// states of layers that aren't there is refused.
pub fn run_is_computed()
    ensures { RunIsComputed }
{}

/// Without curves a valid scene is safe exactly where what is computed and painted is. Safety of the
/// declared values alone is refused.
pub fn safety_is_computed()
    ensures { SafetyIsComputed }
{}
