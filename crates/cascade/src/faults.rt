// Why an element gives no layer.
ghost use Rattle.std.specs.Prelude.{◌≡◌, false, List, map, unwrap_or, slice_get};
ghost use Rattle.std.specs.Option.{option_map};
ghost use Rattle.page_model.specs.declared.keyframe.KeyframeSet.{KeyframeSet};
ghost use Rattle.page_model.specs.Cascade as definition;
ghost use Rattle.cascade_winners.specs.Views.{winners_as};
ghost use Rattle.cascade.specs.FaultViews.{fault_as, some_animates_more};

use crate::longhands::names;
use crate::properties::{
    COLOUR, HEIGHT, LEFT, NAMES, OPACITY, POSITION, TOP, VISIBILITY, WIDTH, Z_INDEX,
};
use cascade_winners::Winners;
use page_model::{Anim, Tag};

/// What an element may have.
#[derive(Clone, Copy)]
pub enum Fault {
    NotPlaced,
    BodyProperty,
    TooManyAnimations,
}

// Whether an element has all that a box needs.
fn is_placed(winners: &Winners<'_>) -> bool
    ensures { result ≡ definition.is_placed (winners_as winners.now) }
{
    if !winners.has(POSITION) {
        return false;
    }
    if !winners.has(LEFT) {
        return false;
    }
    if !winners.has(TOP) {
        return false;
    }
    if !winners.has(WIDTH) {
        return false;
    }
    if !winners.has(HEIGHT) {
        return false;
    }
    winners.has(COLOUR)
}

// Whether an element lacks a declaration that it needs.
fn lacks(tag: Tag, winners: &Winners<'_>, anims: &[Anim]) -> bool
    ensures { result ≡ definition.lacks tag (winners_as winners.now) anims.now }
{
    match tag {
        Tag::Body => {
            if anims.is_empty() {
                return false;
            }
            !winners.has(COLOUR)
        }
        Tag::Div => !is_placed(winners),
        Tag::Span => !is_placed(winners),
    }
}

// Whether an element has a property that the body may not have.
fn has_box_property(winners: &Winners<'_>) -> bool
    ensures { result ≡ definition.has_box_property (winners_as winners.now) }
{
    [
        POSITION, LEFT, TOP, WIDTH, HEIGHT, OPACITY, VISIBILITY, Z_INDEX,
    ]
    .iter()
    .any(|property| winners.has(*property))
}

fn is_more(more: &[bool], set: u32) -> bool
    ensures { result ≡ unwrap_or (slice_get more.now set) false }
{
    match more.get(set as usize) {
        Some(more) => *more,
        None => false,
    }
}

// Whether an animation changes more than the background.
fn animates_more(more: &[bool], anims: &[Anim]) -> bool
    ensures { result ≡ some_animates_more more.now anims.now }
{
    anims.iter().any(|anim| is_more(more, anim.set))
}

// Whether the body has what it may not have.
fn breaks_body(tag: Tag, more: &[bool], winners: &Winners<'_>, anims: &[Anim]) -> bool
    ensures { (sets : List KeyframeSet) → more.now ≡ map definition.names_more sets
        → result ≡ definition.breaks_body tag sets (winners_as winners.now) anims.now }
{
    match tag {
        Tag::Body => {
            if has_box_property(winners) {
                return true;
            }
            animates_more(more, anims)
        }
        Tag::Div => false,
        Tag::Span => false,
    }
}

// Whether the winning list of names has more than eight items.
fn has_too_many(winners: &Winners<'_>) -> bool
    ensures { result ≡ definition.has_too_many (winners_as winners.now) }
{
    match names(winners.value(NAMES)) {
        Some(names) => names.len() > 8,
        None => false,
    }
}

/// The first fault of an element, if it has one.
pub fn fault_of(tag: Tag, more: &[bool], winners: &Winners<'_>, anims: &[Anim]) -> Option<Fault>
    ensures { (sets : List KeyframeSet) → more.now ≡ map definition.names_more sets
        → option_map fault_as result ≡ definition.fault_of tag sets (winners_as winners.now) anims.now }
{
    if lacks(tag, winners, anims) {
        return Some(Fault::NotPlaced);
    }
    if breaks_body(tag, more, winners, anims) {
        return Some(Fault::BodyProperty);
    }
    if has_too_many(winners) {
        return Some(Fault::TooManyAnimations);
    }
    None
}
