// Why a text of a witness isn't read.
use page_model::NoMemory;
use std::alloc::AllocError;
use std::error::Error;
use std::fmt;

/// Why a text of a witness isn't read.
#[derive(Clone, Copy, Debug, PartialEq, Eq)]
pub enum TextFault {
    /// The bytes are the text of no witness.
    BadWitness,
    /// Memory was refused.
    NoMemory,
}

impl fmt::Display for TextFault {
    fn fmt<W: fmt::Write>(&self, f: &mut fmt::Formatter<W>) -> fmt::Result {
        match self {
            TextFault::BadWitness => write!(f, "not the text of a witness"),
            TextFault::NoMemory => write!(f, "no memory"),
        }
    }
}

impl Error for TextFault {}

impl From<NoMemory> for TextFault {
    ghost use Rattle.std.specs.Prelude.{◌≡◌};
    ghost use Rattle.witness_text.specs.declared.fault.TextFault.TheVariants.{NoMemory as Refused};

    ghost from_gives = { λ _ fault. fault ≡ Refused };

    fn from(_: NoMemory) -> Self {
        TextFault::NoMemory
    }
}

impl From<AllocError> for TextFault {
    ghost use Rattle.std.specs.Prelude.{◌≡◌};
    ghost use Rattle.witness_text.specs.declared.fault.TextFault.TheVariants.{NoMemory as Refused};

    ghost from_gives = { λ _ fault. fault ≡ Refused };

    fn from(_: AllocError) -> Self {
        TextFault::NoMemory
    }
}
