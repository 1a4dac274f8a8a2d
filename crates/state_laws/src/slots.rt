// The whole value of a slot, and with it a layer's state.
ghost use Rattle.state_laws.specs.UniqueLaws.{ChannelIsUnique, ShownIsUnique, SlotIsUnique, StateIsUnique};

/// A slot has at most one value, by any easing at any input. A definition that only asks for a value that is reached, and
/// not for the greatest, is refused.
pub fn slot_is_unique()
    ensures { SlotIsUnique }
{}

/// A channel has at most one value on its way between two colours. A definition that divides by the alpha, and leaves the channel free
/// where the alpha is 0, is refused.
pub fn channel_is_unique()
    ensures { ChannelIsUnique }
{}

/// Between two values a layer is shown or not, and never both. A definition that asks for hidden only where it is reached, and
/// leaves visible free, is refused.
pub fn shown_is_unique()
    ensures { ShownIsUnique }
{}

/// A layer has at most one exact state in a frame. A definition that leaves a part of the state free is refused.
pub fn state_is_unique()
    ensures { StateIsUnique }
{}
