// The parts of a value that go into slots.
ghost use Rattle.std.specs.Prelude.{◌≡◌};
ghost use Rattle.page_model.specs.LayerAt as definition;
ghost use Rattle.slot_values.specs.Channels.{shade_as};
ghost use Rattle.layer_ways.specs.Alpha.{HasAlpha};

use page_model::{Rgba, Value};
use slot_values::Shade;

/// The colour of a value that is none: transparent.
const NO_COLOUR: Rgba = Rgba {
    r: 0,
    g: 0,
    b: 0,
    a: 0,
};

/// The colour of a value.
fn colour_in(value: Value) -> Rgba
    ensures { result ≡ definition.colour_in value }
{
    match value {
        Value::Colour(c) => c,
        _ => NO_COLOUR,
    }
}

/// The red of a value, and the alpha of its colour.
pub fn red_of(value: Value) -> Shade
    ensures { shade_as result ≡ definition.red_of value }
{
    let c = colour_in(value);
    Shade {
        level: c.r,
        alpha: c.a,
    }
}

/// The green of a value, and the alpha of its colour.
pub fn green_of(value: Value) -> Shade
    ensures { shade_as result ≡ definition.green_of value }
{
    let c = colour_in(value);
    Shade {
        level: c.g,
        alpha: c.a,
    }
}

/// The blue of a value, and the alpha of its colour.
pub fn blue_of(value: Value) -> Shade
    ensures { shade_as result ≡ definition.blue_of value }
{
    let c = colour_in(value);
    Shade {
        level: c.b,
        alpha: c.a,
    }
}

/// The cover of a value, in parts of 255,000.
pub fn cover_of(value: Value) -> i32
    requires { HasAlpha value }
    ensures { result ≡ definition.cover_of value }
{
    colour_in(value).a as i32
}

/// The opacity of a value: 255 times its thousandths.
pub fn alpha_of(value: Value) -> i32
    ensures { result ≡ definition.alpha_of value }
{
    match value {
        Value::Opacity(thousandths) => 255 * thousandths as i32,
        _ => 0,
    }
}

/// The length of a value, in hundredths of a pixel.
pub fn length_of(value: Value) -> i32
    ensures { result ≡ definition.length_of value }
{
    match value {
        Value::Length(hundredths) => hundredths,
        _ => 0,
    }
}

/// Whether a value is visible.
pub fn visible_of(value: Value) -> bool
    ensures { result ≡ definition.visible_of value }
{
    match value {
        Value::Shown(visible) => visible,
        _ => true,
    }
}
