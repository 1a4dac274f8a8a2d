// Reading a whole file.
ghost use Rattle.std.specs.Prelude.{◌≡◌, ◌+◌, ◌≤◌, length, IfOk, OnOk, IsErrOf};
ghost use Rattle.std.specs.Io.KnownBytes.{IsAtEnd};
ghost use Rattle.io_edge.specs.Faults.{Rose};
ghost use Rattle.io_edge.specs.Files.{SameNames};
ghost use Rattle.io_edge.specs.Reading.{IsFile, IsLonger, IsBehind, IsBehindSome};

use crate::fault::SourceFault;
use crate::source::Source;
use std::alloc::{AllocError, Global};
use std::error::Error;
use std::fmt;

/// How many bytes a read is offered at most.
const PIECE: usize = 4096;

/// Why a file was not read whole.
#[derive(Clone, Copy, Debug, PartialEq, Eq)]
pub enum ReadAllFault {
    /// The source gave up.
    ReadFault,
    /// There were more bytes than the limit.
    TooLong,
    /// Memory was refused.
    NoMemory,
}

impl fmt::Display for ReadAllFault {
    fn fmt<W: fmt::Write>(&self, f: &mut fmt::Formatter<W>) -> fmt::Result {
        match self {
            ReadAllFault::ReadFault => write!(f, "source fault"),
            ReadAllFault::TooLong => write!(f, "too long"),
            ReadAllFault::NoMemory => write!(f, "no memory"),
        }
    }
}

impl Error for ReadAllFault {}

impl From<SourceFault> for ReadAllFault {
    ghost use Rattle.io_edge.specs.declared.reading.ReadAllFault.TheVariants.{ReadFault};
    ghost use Rattle.std.specs.Prelude.{◌≡◌};

    ghost from_gives = { λ _ e. e ≡ ReadFault };

    fn from(_: SourceFault) -> Self {
        ReadAllFault::ReadFault
    }
}

impl From<AllocError> for ReadAllFault {
    ghost use Rattle.io_edge.specs.declared.reading.ReadAllFault.TheVariants.{NoMemory};
    ghost use Rattle.std.specs.Prelude.{◌≡◌};

    ghost from_gives = { λ _ e. e ≡ NoMemory };

    fn from(_: AllocError) -> Self {
        ReadAllFault::NoMemory
    }
}

/// Opens a name and reads to the end of the file, or until one byte more than the limit came. Each
/// read is offered the smaller of 4,096 bytes and what is missing from that.
///
/// After `ReadFault` nothing is said of the rest of the file.
#[tactic(auto, using(crate::proofs::Taken::taken))]
pub fn read_all<S: Source>(
    alloc: Global,
    source: &mut S,
    name: &str,
    limit: u32,
) -> Result<Vec<u8>, ReadAllFault>
    requires { S.may_open source.old name.now }

    // The whole file, where it isn't longer than the limit.
    ensures bytes { IfOk result (λ bytes. IsFile (S.files source.old) name.now bytes.items) }
    ensures limit { IfOk result (λ bytes. length bytes.items ≤ limit) }
    ensures end { OnOk result (IsAtEnd (S.rest source.new)) }

    // Else one byte more than the limit was taken.
    ensures longer { IsErrOf result ReadAllFault.TooLong →
        IsLonger (S.files source.old) name.now limit }
    ensures behind { IsErrOf result ReadAllFault.TooLong →
        IsBehind (S.files source.old) name.now (limit + 1) (S.rest source.new) }

    // At most as much was taken where memory was refused, and a fault is the source's.
    ensures no_memory { IsErrOf result ReadAllFault.NoMemory →
        IsBehindSome (S.files source.old) name.now (limit + 1) (S.rest source.new) }
    ensures fault { IsErrOf result ReadAllFault.ReadFault →
        Rose (S.faults source.old) (S.faults source.new) }

    // The source goes on as the same one.
    ensures later { S.faults source.old ≤ S.faults source.new }
    ensures files { S.files source.new ≡ S.files source.old }
    ensures names { SameNames (S.may_open source.old) (S.may_open source.new) }
{
    source.open(name)?;
    let enough = limit as usize + 1;
    let mut bytes = Vec::new(alloc);
    let mut piece = [0; PIECE];
    'pieces: while bytes.len() < enough {
        let room = (enough - bytes.len()).min(PIECE);
        let count = source.read(&mut piece[..room])?;
        if count == 0 {
            return Ok(bytes);
        }
        bytes.extend_from_slice(&piece[..count])?;
    }
    Err(ReadAllFault::TooLong)
}
