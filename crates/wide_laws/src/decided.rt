// Whether a window is bad.
ghost use Rattle.wide_laws.specs.DecidedLaws.{BadIsDecided};

/// Of each painting it is decided whether a window is bad at a position, without excluded middle. A window of endlessly many frames is
/// refused.
pub fn bad_is_decided()
    ensures { BadIsDecided }
{}
