// How a run ends.

/// The exit status of a run.
#[derive(Clone, Copy, Debug, PartialEq, Eq)]
pub enum Status {
    /// 0: `check` answers pass, a witness is accepted, or a tint is told.
    Pass,
    /// 1: `check` answers fail, and the text is the witness; or a witness isn't accepted.
    Bad,
    /// 2: `check` answers undecided.
    Undecided,
    /// 3: the words are no command.
    Words,
    /// 4: the page is refused.
    Page,
    /// 5: the source counted a fault.
    ReadFault,
    /// 6: the sink counted a fault.
    WriteFault,
    /// 7: memory was refused.
    NoMemory,
}
