// What the wide kind says of windows.
ghost use Rattle.wide_laws.specs.WideLaws.{NeverPossiblyBadIsSafe, SurelyBadIsBad};

/// A window that is surely bad by the wide kind is bad. A sure rise from the lower end is refused.
pub fn surely_bad_is_bad()
    ensures { SurelyBadIsBad }
{}

/// A valid scene of which no window is possibly bad by the wide kind is safe. A possible red change that asks for a tint of one colour
/// is refused.
pub fn never_possibly_bad_is_safe()
    ensures { NeverPossiblyBadIsSafe }
{}
