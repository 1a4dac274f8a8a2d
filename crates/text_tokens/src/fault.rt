// Why a text has no tokens.
use page_model::NoMemory;
use std::error::Error;
use std::fmt;

/// Why a text can't be split into tokens.
#[derive(Clone, Copy, Debug, PartialEq, Eq)]
pub enum ScanFault {
    /// At this byte of the file nothing begins, and before it only tokens, white space and comments stand.
    BadToken { at: u32 },
    /// Memory was refused.
    NoMemory,
}

impl fmt::Display for ScanFault {
    fn fmt<W: fmt::Write>(&self, f: &mut fmt::Formatter<W>) -> fmt::Result {
        match self {
            ScanFault::BadToken { at } => write!(f, "nothing begins at byte {at}"),
            ScanFault::NoMemory => write!(f, "no memory"),
        }
    }
}

impl Error for ScanFault {}

impl From<NoMemory> for ScanFault {
    ghost use Rattle.std.specs.Prelude.{◌≡◌};
    ghost use Rattle.text_tokens.specs.declared.fault.ScanFault.TheVariants.{NoMemory as Refused};

    ghost from_gives = { λ _ fault. fault ≡ Refused };

    fn from(_: NoMemory) -> Self {
        ScanFault::NoMemory
    }
}
