// Wrong definitions beside the right ones, each with an example on which it breaks a law.
ghost use Rattle.state_laws.specs.WrongRun.{CoverRunBreaks};
ghost use Rattle.state_laws.specs.WrongSlot.{HalfDownBreaks, NearerBreaks, SomeBreaks};

/// A slot rounded half down isn't what is computed: half the way from 0 to 1 is 1.
pub fn half_down_breaks()
    ensures { HalfDownBreaks }
{}

/// A slot that takes any value that is reached has two: half the way from 0 to 1 both 0 and 1.
pub fn some_breaks()
    ensures { SomeBreaks }
{}

/// The nearer of visible and hidden isn't what is shown: three quarters of the way from visible to hidden a layer is visible.
pub fn nearer_breaks()
    ensures { NearerBreaks }
{}

/// A run by slots that have to be reached, the least of the range too, may be empty: on a page whose colour's
/// alpha follows a curve below 0.
pub fn cover_run_breaks()
    ensures { CoverRunBreaks }
{}
