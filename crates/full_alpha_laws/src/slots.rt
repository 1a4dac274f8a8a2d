// Channels and covers of opaque colours.
ghost use Rattle.full_alpha_laws.specs.SlotLaws.{ChannelsAreFormer, CoversAreFull, LooseChannelsAreFormer};

/// Between two opaque colours a channel has the value of the former text, and no other. A test of a level that isn't in
/// proportion to the alpha is refused.
pub fn channels_are_former()
    ensures { ChannelsAreFormer }
{}

/// So has a loose channel of each kind. A wide kind whose margin isn't in proportion to the way is refused.
pub fn loose_channels_are_former()
    ensures { LooseChannelsAreFormer }
{}

/// Between two opaque colours the cover is 255, exactly and by each kind. Covers in another unit than the alpha are refused.
pub fn covers_are_full()
    ensures { CoversAreFull }
{}
