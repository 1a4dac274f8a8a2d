// Why a scene isn't parted.
use page_model::NoMemory;

/// Why a scene isn't judged part by part.
#[derive(Clone, Copy, Debug, PartialEq, Eq)]
pub enum PartFault {
    /// A layer or a cell needs too many frames, or cells times the frames that have to be looked at are too many.
    NotApart,
    /// Memory was refused.
    NoMemory,
}

impl From<NoMemory> for PartFault {
    ghost use Rattle.std.specs.Prelude.{◌≡◌};
    ghost use Rattle.region_parts.specs.declared.types.PartFault.TheVariants.{NoMemory as Refused};

    ghost from_gives = { λ _ fault. fault ≡ Refused };

    fn from(_: NoMemory) -> Self {
        PartFault::NoMemory
    }
}
