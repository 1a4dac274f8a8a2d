// Why a source or a sink gave up.
use std::error::Error;
use std::fmt;

/// A source could not open a name or read on.
#[derive(Clone, Copy, Debug, PartialEq, Eq)]
pub struct SourceFault;

impl fmt::Display for SourceFault {
    fn fmt<W: fmt::Write>(&self, f: &mut fmt::Formatter<W>) -> fmt::Result {
        write!(f, "source fault")
    }
}

impl Error for SourceFault {}

/// A sink could not take what was written.
#[derive(Clone, Copy, Debug, PartialEq, Eq)]
pub struct SinkFault;

impl fmt::Display for SinkFault {
    fn fmt<W: fmt::Write>(&self, f: &mut fmt::Formatter<W>) -> fmt::Result {
        write!(f, "sink fault")
    }
}

impl Error for SinkFault {}
