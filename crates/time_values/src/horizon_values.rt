// Settled frames and periods, as another implementation gives them.
ghost use Rattle.time_values.specs.HorizonValues.{SettledValues, PeriodValues, VideoHorizons};

/// When animations have settled. It refuses a definition that forgets the delay, or waits for a paused animation.
pub fn settled_values()
    ensures { SettledValues }
{}

/// After how many frames endless animations repeat. It refuses a cycle that isn't doubled for an alternate, and a
/// period of milliseconds in place of frames.
pub fn period_values()
    ensures { PeriodValues }
{}

/// At the rates of video. It refuses a definition by which a second has a whole number of frames.
pub fn video_horizons()
    ensures { VideoHorizons }
{}
