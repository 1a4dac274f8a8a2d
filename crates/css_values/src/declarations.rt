// The value of a declaration: CSS Cascading Level 3 has what a shorthand sets.
ghost use Rattle.std.specs.Prelude.{◌≡◌, ◌∷◌, [], All, IfOk};
ghost use Rattle.css_items.specs.Lists.{Gives, list_of};
ghost use Rattle.css_values.specs.ShorthandGrammar.{item_of};
ghost use Rattle.css_values.specs.ValidValues.{IsLonghand};
ghost use Rattle.css_columns.specs.Columns.{columns};
ghost use Rattle.css_values.specs.ValueGrammar.{declaration_of, is_shorthand, longhand_of, only_if};
ghost use Rattle.css_words.specs.Words.{mapped, words};

use crate::items::{Counts, Delays, Directions, Durations, Easings, Fills, Names, Plays};
use crate::shorthand::Shorthands;
use crate::types::Property;
use css_colours::colour;
use css_columns::columns;
use css_items::{list_of, visibility};
use css_quantities::{is_nothing, length, opacity, z_index};
use css_words::{ValueFault, is_lone};
use page_model::{List, Longhand, NoMemory};
use std::alloc::Global;
use style_tokens::CssToken;

/// One value, where a test holds.
fn only_if(holds: bool, longhand: Longhand) -> Result<Longhand, ValueFault>
    ensures { result ≡ only_if holds longhand }
{
    if holds {
        Ok(longhand)
    } else {
        Err(ValueFault::BadValue)
    }
}

/// The value of a property that sets one longhand.
fn longhand(
    alloc: Global,
    property: Property,
    text: &[u8],
    tokens: &[CssToken],
) -> Result<Longhand, ValueFault>
    ensures { Gives result (longhand_of property (words text.now tokens.now)) }
{
    match property {
        Property::Position => only_if(is_lone(b"absolute", text, tokens), Longhand::Position),
        Property::Left => Ok(Longhand::Left(length(text, tokens, true)?)),
        Property::Top => Ok(Longhand::Top(length(text, tokens, true)?)),
        Property::Width => Ok(Longhand::Width(length(text, tokens, false)?)),
        Property::Height => Ok(Longhand::Height(length(text, tokens, false)?)),
        Property::BackgroundColor | Property::Background => Ok(Longhand::Colour(colour(
            text, tokens,
        )?)),
        Property::Opacity => Ok(Longhand::Opacity(opacity(text, tokens)?)),
        Property::Visibility => Ok(Longhand::Visibility(visibility(text, tokens)?)),
        Property::ZIndex => Ok(Longhand::ZIndex(z_index(text, tokens)?)),
        Property::Margin => only_if(is_nothing(text, tokens), Longhand::Margin),
        Property::Padding => only_if(is_nothing(text, tokens), Longhand::Padding),
        Property::AnimationName => Ok(Longhand::Names(list_of::<Names>(alloc, text, tokens)?)),
        Property::AnimationDuration => Ok(Longhand::Durations(list_of::<Durations>(
            alloc, text, tokens,
        )?)),
        Property::AnimationDelay => Ok(Longhand::Delays(list_of::<Delays>(alloc, text, tokens)?)),
        Property::AnimationTimingFunction => Ok(Longhand::Easings(list_of::<Easings>(
            alloc, text, tokens,
        )?)),
        Property::AnimationIterationCount => Ok(Longhand::Counts(list_of::<Counts>(
            alloc, text, tokens,
        )?)),
        Property::AnimationDirection => Ok(Longhand::Directions(list_of::<Directions>(
            alloc, text, tokens,
        )?)),
        Property::AnimationFillMode => Ok(Longhand::Fills(list_of::<Fills>(alloc, text, tokens)?)),
        Property::AnimationPlayState => Ok(Longhand::Paused(list_of::<Plays>(
            alloc, text, tokens,
        )?)),
        Property::Animation => Err(ValueFault::BadValue),
    }
}

/// The eight longhands of the shorthand.
fn animation(alloc: Global, text: &[u8], tokens: &[CssToken]) -> Result<List<Longhand>, ValueFault>
    ensures { Gives result (mapped columns (list_of item_of (words text.now tokens.now))) }
{
    let items = list_of::<Shorthands>(alloc, text, tokens)?;
    Ok(columns(alloc, items)?)
}

/// A list of one longhand.
fn alone(alloc: Global, longhand: Longhand) -> Result<List<Longhand>, NoMemory>
    ensures { IfOk result (λ list. list ≡ longhand ∷ []) }
{
    let mut list = List::new(alloc);
    list.push(longhand)?;
    Ok(list)
}

/// Whether it is the shorthand `animation`.
fn is_shorthand(property: Property) -> bool
    ensures { result ≡ is_shorthand property }
{
    matches!(property, Property::Animation)
}

/// The longhands that a declaration of this property with this value sets, in the order of the variants of
/// [`Longhand`]: one, or for the shorthand `animation` eight.
pub fn declaration(
    alloc: Global,
    property: Property,
    text: &[u8],
    tokens: &[CssToken],
) -> Result<List<Longhand>, ValueFault>
    ensures exact { Gives result (declaration_of property (words text.now tokens.now)) }
    ensures valid { IfOk result (λ longhands. All IsLonghand longhands) }
{
    any_declaration(alloc, property, text, tokens)
}

/// The longhands of a declaration.
#[tactic(auto, unfolding(crate::specs::ValueGrammar::declaration_of))]
fn any_declaration(
    alloc: Global,
    property: Property,
    text: &[u8],
    tokens: &[CssToken],
) -> Result<List<Longhand>, ValueFault>
    ensures { Gives result (declaration_of property (words text.now tokens.now)) }
{
    if is_shorthand(property) {
        return animation(alloc, text, tokens);
    }
    let longhand = longhand(alloc, property, text, tokens)?;
    Ok(alone(alloc, longhand)?)
}
