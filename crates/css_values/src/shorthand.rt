// The shorthand `animation`: CSS Animations Level 1, as a profile.
ghost use Rattle.std.specs.Prelude.{◌≡◌, ◌∷◌, ◌<◌, ◌≤◌, false, true, length, option_copied, option_map, unwrap_or};
ghost use Rattle.css_items.specs.Lists.{Gives};
ghost use Rattle.css_quantities.specs.Quantities.{time_of};
ghost use Rattle.css_values.specs.ShorthandGrammar.{ends_word, free, is_value, item_of, settled, take_all, take_count};
ghost use Rattle.css_values.specs.ShorthandGrammar.{take_direction, take_easing, take_fill, take_keyword, take_name};
ghost use Rattle.css_values.specs.ShorthandGrammar.{groups, take_play, take_time, take_word, word_length};
ghost use Rattle.css_values.specs.ShorthandViews.{held};
ghost use Rattle.css_words.specs.Words.{words};

use css_columns::Shorthand;
use css_easings::easing;
use css_items::{Item, direction, fill, name_text, owned_name, play};
use css_quantities::{count, duration, time};
use css_words::ValueFault;
use page_model::{Count, Direction, Easing, Fill};
use std::alloc::Global;
use style_tokens::{CssKind, CssToken};

/// What the words of an item took, and whether one was past its limit.
#[derive(Clone, Copy)]
pub struct Slots<'a> {
    pub duration: Option<u32>,
    pub delay: Option<i32>,
    pub easing: Option<Easing>,
    pub count: Option<Count>,
    pub direction: Option<Direction>,
    pub fill: Option<Fill>,
    pub paused: Option<bool>,
    pub name: Option<Option<&'a [u8]>>,
    pub over: bool,
}

/// The initial easing, `ease`.
const EASE: Easing = Easing::Cubic {
    x1: 250,
    y1: 100,
    x2: 250,
    y2: 1000,
};

/// Slots of which none is taken.
const FREE: Slots<'static> = Slots {
    duration: None,
    delay: None,
    easing: None,
    count: None,
    direction: None,
    fill: None,
    paused: None,
    name: None,
    over: false,
};

/// A time is the duration, and a second one the delay.
#[tactic(auto, unfolding(crate::specs::ShorthandGrammar::take_time))]
fn take_time<'a>(slots: Slots<'a>, text: &'a [u8], word: &[CssToken]) -> Option<Slots<'a>>
    ensures { option_map held result ≡ take_time (held slots.entry) (words text.now word.now) }
{
    if slots.duration.is_none() {
        return match duration(text, word) {
            Ok(duration) => Some(Slots {
                duration: Some(duration),
                ..slots
            }),
            Err(ValueFault::OverLimit) => Some(Slots {
                duration: Some(0),
                over: true,
                ..slots
            }),
            Err(_) => None,
        };
    }
    if slots.delay.is_some() {
        return None;
    }
    match time(text, word, true) {
        Ok(delay) => Some(Slots {
            delay: Some(delay),
            ..slots
        }),
        Err(ValueFault::OverLimit) => Some(Slots {
            delay: Some(0),
            over: true,
            ..slots
        }),
        Err(_) => None,
    }
}

/// An easing takes its slot.
#[tactic(auto, unfolding(crate::specs::ShorthandGrammar::take_easing))]
fn take_easing<'a>(slots: Slots<'a>, text: &'a [u8], word: &[CssToken]) -> Option<Slots<'a>>
    ensures { option_map held result ≡ take_easing (held slots.entry) (words text.now word.now) }
{
    if slots.easing.is_some() {
        return None;
    }
    match easing(text, word) {
        Ok(easing) => Some(Slots {
            easing: Some(easing),
            ..slots
        }),
        Err(ValueFault::OverLimit) => Some(Slots {
            easing: Some(Easing::Linear),
            over: true,
            ..slots
        }),
        Err(_) => None,
    }
}

/// A count takes its slot.
#[tactic(auto, unfolding(crate::specs::ShorthandGrammar::take_count))]
fn take_count<'a>(slots: Slots<'a>, text: &'a [u8], word: &[CssToken]) -> Option<Slots<'a>>
    ensures { option_map held result ≡ take_count (held slots.entry) (words text.now word.now) }
{
    if slots.count.is_some() {
        return None;
    }
    match count(text, word) {
        Ok(count) => Some(Slots {
            count: Some(count),
            ..slots
        }),
        Err(ValueFault::OverLimit) => Some(Slots {
            count: Some(Count::Infinite),
            over: true,
            ..slots
        }),
        Err(_) => None,
    }
}

/// A direction takes its slot.
#[tactic(auto, unfolding(crate::specs::ShorthandGrammar::take_direction))]
fn take_direction<'a>(slots: Slots<'a>, text: &'a [u8], word: &[CssToken]) -> Option<Slots<'a>>
    ensures { option_map held result ≡ take_direction (held slots.entry) (words text.now word.now) }
{
    if slots.direction.is_some() {
        return None;
    }
    match direction(text, word) {
        Ok(direction) => Some(Slots {
            direction: Some(direction),
            ..slots
        }),
        Err(_) => None,
    }
}

/// A fill mode takes its slot.
#[tactic(auto, unfolding(crate::specs::ShorthandGrammar::take_fill))]
fn take_fill<'a>(slots: Slots<'a>, text: &'a [u8], word: &[CssToken]) -> Option<Slots<'a>>
    ensures { option_map held result ≡ take_fill (held slots.entry) (words text.now word.now) }
{
    if slots.fill.is_some() {
        return None;
    }
    match fill(text, word) {
        Ok(fill) => Some(Slots {
            fill: Some(fill),
            ..slots
        }),
        Err(_) => None,
    }
}

/// A play state takes its slot.
#[tactic(auto, unfolding(crate::specs::ShorthandGrammar::take_play))]
fn take_play<'a>(slots: Slots<'a>, text: &'a [u8], word: &[CssToken]) -> Option<Slots<'a>>
    ensures { option_map held result ≡ take_play (held slots.entry) (words text.now word.now) }
{
    if slots.paused.is_some() {
        return None;
    }
    match play(text, word) {
        Ok(paused) => Some(Slots {
            paused: Some(paused),
            ..slots
        }),
        Err(_) => None,
    }
}

/// A name takes its slot.
#[tactic(auto, unfolding(crate::specs::ShorthandGrammar::take_name))]
fn take_name<'a>(slots: Slots<'a>, text: &'a [u8], word: &[CssToken]) -> Option<Slots<'a>>
    ensures { option_map held result ≡ take_name (held slots.entry) (words text.now word.now) }
{
    if slots.name.is_some() {
        return None;
    }
    match name_text(text, word) {
        Ok(name) => Some(Slots {
            name: Some(name),
            ..slots
        }),
        Err(_) => None,
    }
}

/// A keyword, a count or an easing takes its slot where it is free; any other word, and one whose slot is taken, is the name.
#[tactic(auto, unfolding(crate::specs::ShorthandGrammar::take_keyword))]
fn take_keyword<'a>(slots: Slots<'a>, text: &'a [u8], word: &[CssToken]) -> Option<Slots<'a>>
    ensures { option_map held result ≡ take_keyword (held slots.entry) (words text.now word.now) }
{
    if let Some(next) = take_easing(slots, text, word) {
        return Some(next);
    }
    if let Some(next) = take_count(slots, text, word) {
        return Some(next);
    }
    if let Some(next) = take_direction(slots, text, word) {
        return Some(next);
    }
    if let Some(next) = take_fill(slots, text, word) {
        return Some(next);
    }
    if let Some(next) = take_play(slots, text, word) {
        return Some(next);
    }
    take_name(slots, text, word)
}

/// Whether a word is a time.
fn is_time(text: &[u8], word: &[CssToken]) -> bool
    ensures { result ≡ is_value (time_of true (words text.now word.now)) }
{
    match time(text, word, true) {
        Ok(_) | Err(ValueFault::OverLimit) => true,
        Err(_) => false,
    }
}

/// A word takes its slot.
#[tactic(auto, unfolding(crate::specs::ShorthandGrammar::take_word))]
fn take_word<'a>(slots: Slots<'a>, text: &'a [u8], word: &[CssToken]) -> Option<Slots<'a>>
    ensures { option_map held result ≡ take_word (held slots.entry) (words text.now word.now) }
{
    if is_time(text, word) {
        take_time(slots, text, word)
    } else {
        take_keyword(slots, text, word)
    }
}

/// Whether a token of this kind ends a word.
fn ends_word(inside: bool, kind: CssKind) -> bool
    ensures { result ≡ ends_word inside kind }
{
    match kind {
        CssKind::RightParen => true,
        CssKind::Function => false,
        _ => !inside,
    }
}

/// How many tokens the first word has.
fn word_length(tokens: &[CssToken]) -> usize
    ensures exact { result ≡ word_length false tokens.now }
    ensures within { result ≤ length tokens.now }
    ensures some { 0 < length tokens.now → 0 < result }
{
    let mut inside = false;
    let mut count = 0;
    let mut rest = tokens;
    'counting: while let Some((first, more)) = rest.split_first() {
        count += 1;
        if ends_word(inside, first.kind) {
            return count;
        }
        inside = true;
        rest = more;
    }
    count
}

/// The first word of an item, and the tokens behind it.
#[derive(Clone, Copy)]
struct Group<'a> {
    word: &'a [CssToken],
    rest: &'a [CssToken],
}

/// The first word, where there is one.
fn next_word<'a>(text: &[u8], tokens: &'a [CssToken]) -> Group<'a>
    requires { 0 < length tokens.now }
    ensures groups { groups false (words text.now tokens.now)
        ≡ words text.now result.word.now ∷ groups false (words text.now result.rest.now) }
    ensures shorter { length result.rest.now < length tokens.now }
{
    let (word, rest) = tokens.split_at(word_length(tokens));
    Group { word, rest }
}

/// What all words of an item take.
fn take_all<'a>(text: &'a [u8], tokens: &[CssToken]) -> Option<Slots<'a>>
    ensures { option_map held result ≡ take_all free (groups false (words text.now tokens.now)) }
{
    let mut slots = FREE;
    let mut rest = tokens;
    'words: while !rest.is_empty() {
        let group = next_word(text, rest);
        slots = take_word(slots, text, group.word)?;
        rest = group.rest;
    }
    Some(slots)
}

/// The bytes of the name.
fn name_in<'a>(slots: Slots<'a>) -> Option<&'a [u8]>
    ensures { option_copied result ≡ unwrap_or (held slots.entry).name None }
{
    match slots.name {
        Some(name) => name,
        None => None,
    }
}

/// An item of these slots. Those that nothing took have the initial values.
#[tactic(auto, unfolding(crate::specs::ShorthandGrammar::settled))]
fn settled(alloc: Global, slots: Slots<'_>) -> Result<Shorthand, ValueFault>
    ensures { Gives result (settled (held slots.entry)) }
{
    if slots.over {
        return Err(ValueFault::OverLimit);
    }
    let name = owned_name(alloc, name_in(slots))?;
    Ok(Shorthand {
        name,
        duration: slots.duration.unwrap_or(0),
        easing: slots.easing.unwrap_or(EASE),
        delay: slots.delay.unwrap_or(0),
        count: slots.count.unwrap_or(Count::Times(1000)),
        direction: slots.direction.unwrap_or(Direction::Normal),
        fill: slots.fill.unwrap_or(Fill::Absent),
        paused: slots.paused.unwrap_or(false),
    })
}

/// Items of the shorthand.
pub struct Shorthands;

impl Item for Shorthands {
    type Value = Shorthand;

    ghost item = { item_of };

    #[tactic(auto, unfolding(crate::specs::ShorthandGrammar::item_of))]
    fn read(alloc: Global, text: &[u8], tokens: &[CssToken]) -> Result<Shorthand, ValueFault> {
        let Some(_) = tokens.split_first() else {
            return Err(ValueFault::BadValue);
        };
        match take_all(text, tokens) {
            Some(slots) => settled(alloc, slots),
            None => Err(ValueFault::BadValue),
        }
    }
}
