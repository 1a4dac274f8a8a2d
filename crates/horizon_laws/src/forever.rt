// Why finitely many windows are enough.
ghost use Rattle.horizon_laws.specs.ForeverLaws.{StatesRepeat, FramesHaveEarlier, BadWindowsRepeat, FewWindowsSuffice};

/// Behind the settled frame of all animations each layer's state, the exact one and that of each kind of enclosure,
/// repeats after one period; behind the settled frame of its own animations it repeats after their period, and behind
/// that of some layers, which it is one of, after theirs. It refuses a horizon over the animations of another layer
/// alone.
pub fn states_repeat()
    ensures { StatesRepeat }
{}

/// So each frame has an earlier one, below the settled frame and one period, from which on all that repeats does the
/// same as from it on. It refuses an earlier frame for each layer by itself, as a whole window would not have one.
pub fn frames_have_earlier()
    ensures { FramesHaveEarlier }
{}

/// So a window that starts behind the settled frame is bad, surely bad or possibly bad where the one that starts a
/// period later is. It refuses a window that begins with the period and is cut off at its end.
pub fn bad_windows_repeat()
    ensures { BadWindowsRepeat }
{}

/// A page is safe for ever where no window that starts below its needed frames is bad, and no window at all is surely,
/// or possibly, bad by a kind where none of those is. It refuses needed frames that count the period alone, or the
/// settled frame alone.
pub fn few_windows_suffice()
    ensures { FewWindowsSuffice }
{}
