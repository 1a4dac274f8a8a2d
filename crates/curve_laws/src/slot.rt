// Laws of loose slots.
ghost use Rattle.curve_laws.specs.SlotLaws.{LooseChannelsNest, LooseShownNests, LooseSlotsNest};

/// The exact value of a slot lies between the ends of each kind, and the ends of the own kind lie
/// between those of the wide one. A lower end that only some values of the set reach, or the ends
/// exchanged, would be refused.
pub fn loose_slots_nest()
    ensures { LooseSlotsNest }
{}

/// So it is for channels between two colours. A channel that is 0 where the alpha is gone for some
/// values of the set only, or whose ends are those of the channels without their alpha, would be
/// refused.
pub fn loose_channels_nest()
    ensures { LooseChannelsNest }
{}

/// What is surely shown, or surely isn't, by a kind is so, and by the wide kind it is so by the own
/// one. A box taken for surely shown where some value hides it would be refused.
pub fn loose_shown_nests()
    ensures { LooseShownNests }
{}
