// Exact states, of which there is always one.
ghost use Rattle.state_laws.specs.RunLaws.{ChannelHasValue, RunExists, ShownHasValue, SlotHasValue, StateExists};

/// It is impossible that a slot has no value. A definition that asks for a value that is reached, with no word of the least of the
/// range, is refused: below the range it has none.
pub fn slot_has_value()
    ensures { SlotHasValue }
{}

/// It is impossible that a channel has no value, also where the alpha goes below 0 on the way. A definition that speaks of a channel
/// only where the alpha is above 0 on the whole way is refused.
pub fn channel_has_value()
    ensures { ChannelHasValue }
{}

/// It is impossible that a layer is neither shown nor hidden. A definition by which visible has to be reached too is refused: below 0
/// there would be no answer.
pub fn shown_has_value()
    ensures { ShownHasValue }
{}

/// It is impossible that a layer has no exact state in a frame. A state whose lengths have to lie above zero is refused.
pub fn state_exists()
    ensures { StateExists }
{}

/// It is impossible that a window has no run of exact states, curves or not: so neither that a scene is safe nor that a window is bad
/// is said of nothing. A run by slots of which some have no value is refused.
pub fn some_run_exists()
    ensures { RunExists }
{}
