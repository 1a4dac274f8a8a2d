// Why a page has no scene.
use page_model::NoMemory;
use thiserror::Error;

/// Why a page has no scene. The element is told by its number, of which the body's is 0.
#[derive(Clone, Copy, Debug, PartialEq, Eq, Drop, Error)]
pub enum SceneFault {
    /// A box has no winning `position`, `left`, `top`, `width`, `height` or `background-color`, or a body with an
    /// animation has no `background-color`.
    #[error("element {index} lacks its place, size or colour")]
    NotPlaced { index: u16 },
    /// The body has a property that only a box may have, by a declaration or by a keyframe set.
    #[error("the body has a property that only a box may have")]
    BodyProperty,
    /// The winning list of animation names has more than eight items.
    #[error("element {index} has more than eight animations")]
    TooManyAnimations { index: u16 },
    /// Memory was refused.
    #[error("no memory")]
    NoMemory,
}

impl From<NoMemory> for SceneFault {
    ghost use Rattle.std.specs.Prelude.{◌≡◌};
    ghost use Rattle.cascade.specs.declared.scene_fault.SceneFault.TheVariants.{NoMemory as Refused};

    ghost from_gives = { λ _ fault. fault ≡ Refused };

    fn from(_: NoMemory) -> Self {
        SceneFault::NoMemory
    }
}
