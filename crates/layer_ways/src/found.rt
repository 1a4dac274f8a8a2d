// The parts of a state: on a way that was found for their property, or where it stays.
ghost use Rattle.std.specs.Prelude.{◌≡◌, ◌<◌};
ghost use Rattle.page_model.specs.Enclosure.{one_value};
ghost use Rattle.page_model.specs.LayerAt as definition;
ghost use Rattle.page_model.specs.Slot as slots;
ghost use Rattle.slot_values.specs.Channels.{shade_as};
ghost use Rattle.slot_values.specs.Ends.{end_of, IsEnd};
ghost use Rattle.slot_values.specs.Slots.{loose_as, slot_as};
ghost use Rattle.layer_ways.specs.Alpha.{HasAlpha};
ghost use Rattle.layer_ways.specs.Found.{fill_as, fill_by};
ghost use Rattle.layer_ways.specs.Ways as ways;
ghost use Rattle.layer_ways.specs.Ways.{channel_by, stays, sureness_of, value_by, way_as};

use crate::parts::{alpha_of, blue_of, cover_of, green_of, length_of, red_of, visible_of};
use crate::types::Shown;
use crate::way::Way;
use fix_span::{Frac, Loose};
use page_model::Value;
use slot_values::{ALPHA, COVER, Shade, Slot, channel_on, slot_value, still};

/// Whether a box is hidden between two visibilities, at an end.
fn hides_at(from: bool, to: bool, end: Frac) -> bool
    requires { IsEnd end }
    ensures { result ≡ ways.hides_at from to (end_of end) }
{
    match (from, to) {
        (true, true) => false,
        (true, false) => end.den <= end.num,
        (false, true) => end.num <= 0,
        (false, false) => true,
    }
}

/// How surely a box is shown on a way.
pub fn shown_on(way: Way) -> Shown
    ensures { sureness_of result ≡ ways.shown_by (way_as way) }
{
    let from = visible_of(way.from);
    let to = visible_of(way.to);
    match (
        hides_at(from, to, way.least),
        hides_at(from, to, way.greatest),
    ) {
        (true, true) => Shown::No,
        (false, false) => Shown::Yes,
        _ => Shown::Maybe,
    }
}

/// How surely a box is shown that stays visible or hidden.
pub fn shown_still(own: Value) -> Shown
    ensures { sureness_of result ≡ ways.shown_by (stays own) }
{
    if visible_of(own) {
        Shown::Yes
    } else {
        Shown::No
    }
}

/// The red on a way.
fn red_on(way: Way) -> Loose
    ensures { loose_as result ≡ channel_by definition.red_of (way_as way) }
{
    let from = red_of(way.from);
    channel_on(from, red_of(way.to), way.least, way.greatest)
}

/// The green on a way.
fn green_on(way: Way) -> Loose
    ensures { loose_as result ≡ channel_by definition.green_of (way_as way) }
{
    let from = green_of(way.from);
    channel_on(from, green_of(way.to), way.least, way.greatest)
}

/// The blue on a way.
fn blue_on(way: Way) -> Loose
    ensures { loose_as result ≡ channel_by definition.blue_of (way_as way) }
{
    let from = blue_of(way.from);
    channel_on(from, blue_of(way.to), way.least, way.greatest)
}

/// The cover on a way.
fn cover_on(way: Way) -> Loose
    ensures { loose_as result ≡ value_by slots.cover definition.cover_of (way_as way) }
{
    let from = cover_of(way.from);
    slot_value(COVER, from, cover_of(way.to), way.least, way.greatest)
}

/// The alpha on a way.
pub fn alpha_on(way: Way) -> Loose
    ensures { loose_as result ≡ value_by slots.alpha definition.alpha_of (way_as way) }
{
    let from = alpha_of(way.from);
    slot_value(ALPHA, from, alpha_of(way.to), way.least, way.greatest)
}

/// A length on a way, in whole pixels.
#[inline(always)]
pub fn pixels_on(slot: Slot, way: Way) -> Loose
    requires { 0 < slot.unit }
    ensures { loose_as result ≡ value_by (slot_as slot) definition.length_of (way_as way) }
{
    let from = length_of(way.from);
    slot_value(slot, from, length_of(way.to), way.least, way.greatest)
}

/// The channels and the cover of a colour.
#[derive(Clone, Copy)]
pub struct Fill {
    pub r: Loose,
    pub g: Loose,
    pub b: Loose,
    pub cover: Loose,
}

/// A channel of a colour that stays.
fn level_still(own: Shade) -> Loose
    ensures { loose_as result ≡ one_value (slots.own_level (shade_as own)) }
{
    let level = own.level as i32;
    Loose {
        lo: level,
        hi: level,
    }
}

/// The colour of a box where it stays.
pub fn fill_still(own: Value) -> Fill
    requires { HasAlpha own }
    ensures { fill_as result ≡ fill_by (stays own) }
{
    Fill {
        r: level_still(red_of(own)),
        g: level_still(green_of(own)),
        b: level_still(blue_of(own)),
        cover: still(COVER, cover_of(own)),
    }
}

/// The colour of a box on a way.
pub fn fill_on(way: Way) -> Fill
    ensures { fill_as result ≡ fill_by (way_as way) }
{
    Fill {
        r: red_on(way),
        g: green_on(way),
        b: blue_on(way),
        cover: cover_on(way),
    }
}

/// The alpha of an opacity that stays.
pub fn alpha_still(own: Value) -> Loose
    ensures { loose_as result ≡ value_by slots.alpha definition.alpha_of (stays own) }
{
    still(ALPHA, alpha_of(own))
}

/// A length that stays, in whole pixels.
pub fn pixels_still(slot: Slot, own: Value) -> Loose
    requires { 0 < slot.unit }
    ensures { loose_as result ≡ value_by (slot_as slot) definition.length_of (stays own) }
{
    still(slot, length_of(own))
}
