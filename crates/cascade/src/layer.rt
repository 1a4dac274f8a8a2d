// The layer of an element, from its winning declarations.
ghost use Rattle.std.specs.Prelude.{◌≡◌};
ghost use Rattle.page_model.specs.Cascade as definition;
ghost use Rattle.cascade_winners.specs.Views.{winners_as};

use crate::longhands::{colour, length, opacity, visibility, z_index};
use crate::properties::{COLOUR, HEIGHT, LEFT, OPACITY, TOP, VISIBILITY, WIDTH, Z_INDEX};
use cascade_winners::Winners;
use page_model::{Anim, Held, Layer, List};

// The properties that no animation may change.
fn held_by(winners: &Winners<'_>) -> Held
    ensures { result ≡ definition.held_by (winners_as winners.now) }
{
    Held {
        background: winners.is_important(COLOUR),
        opacity: winners.is_important(OPACITY),
        visibility: winners.is_important(VISIBILITY),
        left: winners.is_important(LEFT),
        top: winners.is_important(TOP),
        width: winners.is_important(WIDTH),
        height: winners.is_important(HEIGHT),
    }
}

/// The layer with these animations.
pub fn layer_of(winners: &Winners<'_>, anims: List<Anim>) -> Layer
    ensures { result ≡ definition.layer_of (winners_as winners.now) anims }
{
    Layer {
        colour: colour(winners.value(COLOUR)),
        opacity: opacity(winners.value(OPACITY)),
        shown: visibility(winners.value(VISIBILITY)),
        left: length(winners.value(LEFT)),
        top: length(winners.value(TOP)),
        width: length(winners.value(WIDTH)),
        height: length(winners.value(HEIGHT)),
        z: z_index(winners.value(Z_INDEX)),
        important: held_by(winners),
        anims,
    }
}
