// Windows that start behind the needed frames.
ghost use Rattle.period_frames.specs.Windows.{WindowsRepeat};

/// Each window of a page is just as one that starts before the needed frames: it has the same exact states and the same states of each
/// kind of enclosure, frame by frame, and is bad, surely bad or possibly bad at a position where that one is.
pub fn windows_repeat()
    ensures { WindowsRepeat }
{}
