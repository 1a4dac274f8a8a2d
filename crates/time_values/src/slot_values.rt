// Whole values of slots, as others give them.
ghost use Rattle.time_values.specs.SlotValues.{HalvesGoUp, OtherValues, HeldInRange};

/// A half is rounded up. It refuses rounding away from zero, to even and down.
pub fn halves_go_up()
    ensures { HalvesGoUp }
{}

/// Values on the way up, down and below zero. It refuses a division that rounds towards zero.
pub fn other_slot_values()
    ensures { OtherValues }
{}

/// Past its range a slot has the nearest value in it. It refuses a definition that wraps, and one that lets a length
/// be below zero.
pub fn held_in_range()
    ensures { HeldInRange }
{}
