// What periods are for.
ghost use Rattle.horizon_laws.specs.CycleLaws.{ProgressRepeats, WrongCycleBreaks};

/// Behind the settled frame each animation's progress repeats after one period, whatever its delay, direction, fill and
/// end are. It refuses a settled frame that forgets a delay, and a cycle that isn't doubled.
pub fn progress_repeats()
    ensures { ProgressRepeats }
{}

/// By a cycle that isn't doubled an alternate would have the same progress on its way there and back.
pub fn wrong_cycle_breaks()
    ensures { WrongCycleBreaks }
{}
