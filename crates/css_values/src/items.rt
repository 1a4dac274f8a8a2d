// The kinds of items that lists are made of.
ghost use Rattle.css_easings.specs.Easings.{easing_of};
ghost use Rattle.css_items.specs.ItemWords.{direction_words, fill_words, play_words};
ghost use Rattle.css_items.specs.Names.{keyword_of, name_of};
ghost use Rattle.css_quantities.specs.Quantities.{count_of, duration_of, time_of};
ghost use Rattle.std.specs.Prelude.{true};

use css_easings::easing;
use css_items::{Item, direction, fill, name_text, owned_name, play};
use css_quantities::{count, duration, time};
use css_words::ValueFault;
use page_model::{Count, Direction, Easing, Fill, Name};
use std::alloc::Global;
use style_tokens::CssToken;

/// The names of `animation-name`: `None` for `none`.
pub struct Names;

impl Item for Names {
    type Value = Option<Name>;

    ghost item = { name_of };

    fn read(alloc: Global, text: &[u8], tokens: &[CssToken]) -> Result<Option<Name>, ValueFault> {
        match name_text(text, tokens) {
            Ok(bytes) => owned_name(alloc, bytes),
            Err(fault) => Err(fault),
        }
    }
}

/// Times that are not negative, in milliseconds.
pub struct Durations;

impl Item for Durations {
    type Value = u32;

    ghost item = { duration_of };

    fn read(_: Global, text: &[u8], tokens: &[CssToken]) -> Result<u32, ValueFault> {
        duration(text, tokens)
    }
}

/// Times, in milliseconds.
pub struct Delays;

impl Item for Delays {
    type Value = i32;

    ghost item = { time_of true };

    fn read(_: Global, text: &[u8], tokens: &[CssToken]) -> Result<i32, ValueFault> {
        time(text, tokens, true)
    }
}

/// Easings.
pub struct Easings;

impl Item for Easings {
    type Value = Easing;

    ghost item = { easing_of };

    fn read(_: Global, text: &[u8], tokens: &[CssToken]) -> Result<Easing, ValueFault> {
        easing(text, tokens)
    }
}

/// How often animations run.
pub struct Counts;

impl Item for Counts {
    type Value = Count;

    ghost item = { count_of };

    fn read(_: Global, text: &[u8], tokens: &[CssToken]) -> Result<Count, ValueFault> {
        count(text, tokens)
    }
}

/// Directions.
pub struct Directions;

impl Item for Directions {
    type Value = Direction;

    ghost item = { keyword_of direction_words };

    fn read(_: Global, text: &[u8], tokens: &[CssToken]) -> Result<Direction, ValueFault> {
        direction(text, tokens)
    }
}

/// Fill modes.
pub struct Fills;

impl Item for Fills {
    type Value = Fill;

    ghost item = { keyword_of fill_words };

    fn read(_: Global, text: &[u8], tokens: &[CssToken]) -> Result<Fill, ValueFault> {
        fill(text, tokens)
    }
}

/// Play states: whether they are `paused`.
pub struct Plays;

impl Item for Plays {
    type Value = bool;

    ghost item = { keyword_of play_words };

    fn read(_: Global, text: &[u8], tokens: &[CssToken]) -> Result<bool, ValueFault> {
        play(text, tokens)
    }
}
