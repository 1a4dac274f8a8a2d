// Why the tokens of a value give none.
use page_model::NoMemory;
use std::error::Error;
use std::fmt;

/// Why the tokens of a value give none.
#[derive(Clone, Copy, Debug, PartialEq, Eq)]
pub enum ValueFault {
    /// The tokens spell no value of the kind.
    BadValue,
    /// They spell one whose number is past its limit.
    OverLimit,
    /// Memory was refused.
    NoMemory,
}

impl fmt::Display for ValueFault {
    fn fmt<W: fmt::Write>(&self, f: &mut fmt::Formatter<W>) -> fmt::Result {
        match self {
            ValueFault::BadValue => write!(f, "no such value"),
            ValueFault::OverLimit => write!(f, "past a limit"),
            ValueFault::NoMemory => write!(f, "no memory"),
        }
    }
}

impl Error for ValueFault {}

impl From<NoMemory> for ValueFault {
    ghost use Rattle.std.specs.Prelude.{◌≡◌};
    ghost use Rattle.css_words.specs.declared.fault.ValueFault.TheVariants.{NoMemory as Refused};

    ghost from_gives = { λ _ fault. fault ≡ Refused };

    fn from(_: NoMemory) -> Self {
        ValueFault::NoMemory
    }
}
