// Why bytes are no page.
use page_model::NoMemory;
use thiserror::Error;

/// Why bytes aren't read as a page.
#[derive(Clone, Copy, Debug, PartialEq, Eq, Drop, Error)]
pub enum PageFault {
    /// The bytes spell no page, and this is where they cease to.
    #[error("bad text at {at}")]
    BadText { at: u32 },
    /// The bytes spell a page of more than 64 boxes.
    #[error("more than 64 boxes")]
    TooMany,
    /// Memory was refused.
    #[error("no memory")]
    NoMemory,
}

impl From<NoMemory> for PageFault {
    ghost use Rattle.std.specs.Prelude.{◌≡◌};
    ghost use Rattle.page_reader.specs.declared.fault.PageFault.TheVariants.{NoMemory as Refused};

    ghost from_gives = { λ _ fault. fault ≡ Refused };

    fn from(_: NoMemory) -> Self {
        PageFault::NoMemory
    }
}
