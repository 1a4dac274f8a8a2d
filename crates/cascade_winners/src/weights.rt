// By what one declaration beats another.
ghost use Rattle.std.specs.Prelude.{◌≡◌};
ghost use Rattle.page_model.specs.Cascade as definition;
ghost use Rattle.cascade_winners.specs.Views.{weight_as};

/// By what one declaration beats another, of which the first that differs decides: importance, standing in a style
/// attribute, the number of ids, of classes and of tag names in the selector, and the place in the file.
#[derive(Clone, Copy)]
pub struct Weight {
    pub important: bool,
    pub inline: bool,
    pub ids: usize,
    pub classes: usize,
    pub has_tag: bool,
    pub place: u32,
}

/// Whether another weight is greater.
pub fn is_beaten_by(one: &Weight, other: &Weight) -> bool
    ensures { result ≡ definition.is_beaten_by (weight_as one.now) (weight_as other.now) }
{
    if one.important != other.important {
        return other.important;
    }
    if one.inline != other.inline {
        return other.inline;
    }
    if one.ids != other.ids {
        return one.ids < other.ids;
    }
    if one.classes != other.classes {
        return one.classes < other.classes;
    }
    if one.has_tag != other.has_tag {
        return other.has_tag;
    }
    one.place < other.place
}
