// The channels of colours, by the premultiplied colours on the way.
ghost use Rattle.std.specs.Prelude.{◌≡◌, pos, neg_ℤ, ◌^◌, ◌≤◌, int_le};
ghost use Rattle.page_model.specs.declared.easing.Easing.{Easing};
ghost use Rattle.page_model.specs.Enclosure.{IsLooseChannel, own};
ghost use Rattle.page_model.specs.Fraction.{Fraction};
ghost use Rattle.page_model.specs.Slot as slots;
ghost use Rattle.page_model.specs.ValidScene.{IsBetween};
ghost use Rattle.slot_values.specs.Channels as definition;
ghost use Rattle.slot_values.specs.Channels.{eight_bits, shade_as};
ghost use Rattle.slot_values.specs.Ends.{end_of, AreEnds, IsEnd};
ghost use Rattle.slot_values.specs.Slots as ways;
ghost use Rattle.slot_values.specs.Slots.{loose_as, IsInSlot};

use crate::slots::{are_same, between, loose_of, rounded};
use crate::types::Shade;
use fix_span::{Frac, Loose};

/// A premultiplied channel and the alpha on their way at an end, in parts of the end's denominator.
#[derive(Clone, Copy)]
struct Made {
    product: i128,
    alpha: i128,
    ghost product_range: { IsBetween (neg_ℤ (pos (2 ^ 100))) (pos (2 ^ 100)) product },
    ghost alpha_range: { IsBetween (neg_ℤ (pos (2 ^ 100))) (pos (2 ^ 100)) alpha },
}

/// A channel times its alpha.
fn premultiplied(shade: Shade) -> i32
    requires { shade.alpha ≤ 255000 }
    ensures { result ≡ pos (slots.premultiplied (shade_as shade)) }
{
    shade.level as i32 * shade.alpha as i32
}

/// What is made of a channel and its alpha at an end.
fn made_at(from: Shade, to: Shade, end: Frac) -> Made
    requires first { from.alpha ≤ 255000 }
    requires second { to.alpha ≤ 255000 }
    requires end { IsEnd end }
    ensures product { result.product
        ≡ ways.between (pos (slots.premultiplied (shade_as from))) (pos (slots.premultiplied (shade_as to))) (end_of end) }
    ensures alpha { result.alpha ≡ definition.alpha_at (shade_as from) (shade_as to) (end_of end) }
{
    Made {
        product: between(premultiplied(from), premultiplied(to), end),
        alpha: between(from.alpha as i32, to.alpha as i32, end),
    }
}

/// The product over the alpha, rounded half up and held in its range; 0 where there is no alpha.
fn level(made: Made) -> i32
    ensures { result ≡ slots.over_alpha made.product made.alpha }
{
    if made.alpha <= 0 {
        return 0;
    }
    rounded(made.product, made.alpha, 0, 255)
}

/// The channel by what is made at both ends.
fn channel_left(first: Made, second: Made) -> Loose
    ensures { loose_as result ≡ definition.channel_left (int_le first.alpha (pos 0)) (int_le second.alpha (pos 0))
        (slots.over_alpha first.product first.alpha) (slots.over_alpha second.product second.alpha) }
{
    match (first.alpha <= 0, second.alpha <= 0) {
        (true, true) => Loose { lo: 0, hi: 0 },
        (false, false) => loose_of(level(first), level(second)),
        _ => Loose { lo: 0, hi: 255 },
    }
}

/// The channel by the premultiplied colours at two ends, rounded half up: 0 where the alpha is gone at both ends, and
/// anything from 0 to 255 where it is gone at one of them.
fn channel_at_ends(from: Shade, to: Shade, least: Frac, greatest: Frac) -> Loose
    requires first { from.alpha ≤ 255000 }
    requires second { to.alpha ≤ 255000 }
    requires least { IsEnd least }
    requires greatest { IsEnd greatest }
    ensures { loose_as result
        ≡ definition.channel_between (shade_as from) (shade_as to) (end_of least) (end_of greatest) }
{
    let first = made_at(from, to, least);
    if are_same(least, greatest) {
        return channel_left(first, first);
    }
    channel_left(first, made_at(from, to, greatest))
}

/// The channel on the way from one colour to another, between its values at two ends: of the premultiplied colours,
/// rounded half up. It is 0 where the alpha is gone at both ends, and anything from 0 to 255 where it is gone at one.
///
/// CSS Color Level 4, "Interpolating with Alpha".
pub fn channel_on(from: Shade, to: Shade, least: Frac, greatest: Frac) -> Loose
    requires first { from.alpha ≤ 255000 }
    requires second { to.alpha ≤ 255000 }
    requires least { IsEnd least }
    requires greatest { IsEnd greatest }
    ensures value { loose_as result
        ≡ definition.channel_between (shade_as from) (shade_as to) (end_of least) (end_of greatest) }
    ensures own { (easing : Easing) (x : Fraction) → AreEnds easing x (end_of least) (end_of greatest)
        → IsLooseChannel own easing x (shade_as from) (shade_as to) (loose_as result) }
    ensures range { IsInSlot eight_bits (loose_as result) }
{
    channel_at_ends(from, to, least, greatest)
}
