// Why a window is left open.
ghost use Rattle.enclosure_laws.specs.CauseLaws.{BadWindowsAreOrdered, OpenIsOpenWidely};
ghost use Rattle.enclosure_laws.specs.DecidedTintLaws.{BadByTintsIsDecided};

/// Of given tints it is decided, by each kind, whether a window is possibly or surely bad at a position, without
/// excluded middle. A window of endlessly many frames is refused.
pub fn bad_by_tints_is_decided()
    ensures { BadByTintsIsDecided }
{}

/// A window of a valid scene that is surely bad by the wide kind is so by the own kind; one that is surely bad is bad;
/// one that is bad is possibly bad; and one that is possibly bad by the own kind is so by the wide kind: with the
/// states of the layers, whatever they are. A wide kind that is narrower than the own one is refused.
pub fn bad_windows_are_ordered()
    ensures { BadWindowsAreOrdered }
{}

/// Where no window is surely bad by the own kind, and one is possibly bad, the same holds by the wide kind. An own
/// interval of a curve that reaches further than 2^-16 from its value, or an own margin of red that is wider than that
/// of the wide kind, is refused.
pub fn open_is_open_widely()
    ensures { OpenIsOpenWidely }
{}
