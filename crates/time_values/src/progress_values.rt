// The progress of animations, as another implementation gives it.
ghost use Rattle.time_values.specs.ProgressValues.{BeforeValues, ActiveValues, AfterValues, PausedValues, VideoValues};

/// Before the delay is over: no effect without a fill that says so, else the start of the first iteration. It refuses
/// a definition by which `forwards` fills before the start, and one by which a reversed animation waits at 0.
pub fn progress_before()
    ensures { BeforeValues }
{}

/// While it runs: from the very frame where the delay is over, through iterations in each direction. It refuses
/// a definition by which the end of an iteration that another one follows counts as 1.
pub fn progress_active()
    ensures { ActiveValues }
{}

/// Behind the end: from the very frame where the active duration is over. It refuses a definition by which a whole
/// count ends at 0, and one by which no duration means no progress.
pub fn progress_after()
    ensures { AfterValues }
{}

/// Paused: the time stays 0, but a negative delay counts. It refuses a definition by which a paused animation has no
/// effect, or always stands at its start.
pub fn progress_paused()
    ensures { PausedValues }
{}

/// At the rates of video. It refuses a definition that takes the number of frames in 1,001 seconds for that in one.
pub fn progress_over_1001()
    ensures { VideoValues }
{}
