// The colours that digits spell, with 0 for a byte that is no digit.
ghost use Rattle.std.specs.Prelude.{◌≡◌, ◌+◌, ◌<◌, ◌≤◌, max};
ghost use Rattle.witness_text.specs.Look.{byte_at, digit_value, channel_at, colour_at, tint_at};

use page_model::{Rgb, Tint};

/// The tint that a text spells: one colour, or two where there are more than six digits.
#[tactic(auto, unfolding(crate::specs::Look::tint_at))]
pub fn tint_of_text(text: &[u8]) -> Tint
    ensures { result ≡ tint_at text.now }
{
    let lo = colour_of(text, 0);
    let upper = if text.len() > 6 {
        colour_of(text, 7)
    } else {
        lo
    };
    Tint {
        lo,
        hi: Rgb {
            r: lo.r.max(upper.r),
            g: lo.g.max(upper.g),
            b: lo.b.max(upper.b),
        },
    }
}

/// The colour of the six digits at a place.
#[tactic(auto, unfolding(crate::specs::Look::colour_at))]
fn colour_of(text: &[u8], i: usize) -> Rgb
    requires { i ≤ 7 }
    ensures { result ≡ colour_at text.now i }
{
    Rgb {
        r: channel_of(text, i),
        g: channel_of(text, i + 2),
        b: channel_of(text, i + 4),
    }
}

/// The channel of the two digits at a place.
#[tactic(auto, unfolding(crate::specs::Look::channel_at))]
fn channel_of(text: &[u8], i: usize) -> u8
    requires { i ≤ 11 }
    ensures { result ≡ channel_at text.now i }
{
    16 * digit_of(text, i) + digit_of(text, i + 1)
}

/// The value of the digit at a place.
fn digit_of(text: &[u8], i: usize) -> u8
    ensures value { result ≡ digit_value (byte_at text.now i) }
    ensures small { result < 16 }
{
    match text.get(i) {
        Some(byte) => value_of(*byte),
        None => 0,
    }
}

/// The value of a digit.
fn value_of(byte: u8) -> u8
    ensures value { result ≡ digit_value byte }
    ensures small { result < 16 }
{
    if 48 <= byte && byte <= 57 {
        return byte - 48;
    }
    if 97 <= byte && byte <= 102 {
        return byte - 87;
    }
    0
}
