// Why a style text isn't read.
use page_model::NoMemory;
use thiserror::Error;

/// Why a style text isn't read, with the byte of the file: it is the first fault of the text.
#[derive(Clone, Copy, Debug, PartialEq, Eq, Drop, Error)]
pub enum SheetFault {
    /// A token can't stand there, or the text ends too soon.
    #[error("bad sheet at {at}")]
    BadSheet { at: u32 },
    /// No property has this name.
    #[error("unknown property at {at}")]
    UnknownProperty { at: u32 },
    /// The tokens spell no value.
    #[error("bad value at {at}")]
    BadValue { at: u32 },
    /// A block of keyframes may not have this.
    #[error("bad keyframes at {at}")]
    BadKeyframes { at: u32 },
    /// A value is past a limit.
    #[error("over a limit at {at}")]
    OverLimit { at: u32 },
    /// Memory was refused.
    #[error("no memory")]
    NoMemory,
}

impl From<NoMemory> for SheetFault {
    ghost use Rattle.std.specs.Prelude.{◌≡◌};
    ghost use Rattle.css_declarations.specs.declared.fault.SheetFault.TheVariants.{NoMemory as Refused};

    ghost from_gives = { λ _ fault. fault ≡ Refused };

    fn from(_: NoMemory) -> Self {
        SheetFault::NoMemory
    }
}
