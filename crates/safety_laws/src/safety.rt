// Safe scenes and bad windows.
ghost use Rattle.safety_laws.specs.SafetyLaws.{BadAndSafeExclude, BadByLooks, OneRunTells, RunsLookAlike, SafeByOnePainting, SafeWhereNoneIsBad};
ghost use Rattle.safety_laws.specs.StillLaws.{BlinkingIsBad, StillIsSafe};

/// No scene is safe that has a bad window. Safety over exact runs of which there may be none is refused.
pub fn bad_and_safe_exclude()
    ensures { BadAndSafeExclude }
{}

/// Whatever run of exact states is taken, a valid scene shows the same pixels. A paint order that may name a box which isn't there
/// is refused: its state would be free.
pub fn runs_look_alike()
    ensures { RunsLookAlike }
{}

/// A window is bad by what is seen in its own frames. A chain whose frames may lie outside the window is refused.
pub fn bad_by_looks()
    ensures { BadByLooks }
{}

/// A window is bad by one run of exact states exactly where it is bad by all. A painting that reads the states of another frame than
/// its own is refused: those of a frame outside the window would be free.
pub fn one_run_tells()
    ensures { OneRunTells }
{}

/// A valid scene is safe exactly where no window is bad at any position. Bad windows that only count from a later frame on, or only at
/// positions within the viewport, are refused.
pub fn safe_where_none_is_bad()
    ensures { SafeWhereNoneIsBad }
{}

/// Where one run has the exact states in all frames, a valid scene is safe exactly where what is painted in it is. Safety that depends
/// on which run is taken is refused.
pub fn safe_by_one_painting()
    ensures { SafeByOnePainting }
{}

/// A valid scene without animations is safe at each setup. A change that a colour makes to itself is refused.
pub fn still_is_safe()
    ensures { StillIsSafe }
{}

/// A page that blinks ten times a second, as large as the rectangle, is bad. A chain of more changes than a window has, or an area that
/// no rectangle reaches, is refused.
pub fn blinking_is_bad()
    ensures { BlinkingIsBad }
{}
