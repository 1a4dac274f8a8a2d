// Laws of possible and sure changes of tints.
ghost use Rattle.flash_laws.specs.SureLaws.{ChangesArePossible, SureChangesAreChanges};
ghost use Rattle.flash_laws.specs.WrongSure.{PossibleIsNotSure};

/// A sure change of tints is a change of each colour of the first to each of the second: by
/// luminance, and by red of the own and the wide kind. A sure rise from a tint's lower end, or a
/// red change taken for sure where a tint isn't a single colour, would be refused.
pub fn sure_changes_are_changes()
    ensures { SureChangesAreChanges }
{}

/// A rise from a tint's lower end to another's upper end, taken for sure, breaks that law.
pub fn possible_is_not_sure()
    ensures { PossibleIsNotSure }
{}

/// Where some colour of one tint changes to some colour of another, the tints possibly change. A
/// test of saturation at the tint's lower end alone, or one of far by the lower ends where a tint
/// isn't a single colour, would be refused.
pub fn changes_are_possible()
    ensures { ChangesArePossible }
{}
