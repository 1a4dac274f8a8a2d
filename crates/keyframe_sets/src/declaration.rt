// The value of a property without any animation.
ghost use Rattle.std.specs.Prelude.{◌≡◌};
ghost use Rattle.page_model.specs.LayerAt as definition;

use page_model::{Layer, Prop, Rgba, Value};

// The colour that stands for none.
const NO_COLOUR: Rgba = Rgba {
    r: 0,
    g: 0,
    b: 0,
    a: 0,
};

/// The declared value of a property, which it has where no animation changes it. A body without a colour, which
/// isn't painted, counts as transparent here.
pub fn declared(layer: &Layer, prop: Prop) -> Value
    ensures { result ≡ definition.declared layer.now prop }
{
    match prop {
        Prop::Background => Value::Colour(layer.colour.unwrap_or(NO_COLOUR)),
        Prop::Opacity => Value::Opacity(layer.opacity),
        Prop::Visibility => Value::Shown(layer.shown),
        Prop::Left => Value::Length(layer.left),
        Prop::Top => Value::Length(layer.top),
        Prop::Width => Value::Length(layer.width),
        Prop::Height => Value::Length(layer.height),
    }
}
