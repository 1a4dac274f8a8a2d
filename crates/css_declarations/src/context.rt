// Where declarations stand.
ghost use Rattle.std.specs.Prelude.{◌≡◌};
ghost use Rattle.css_declarations.specs.DeclarationGrammar.{has_one_easing, is_allowed, is_animatable, is_block, is_closed, is_easing, is_ended, is_inline};

use crate::tokens::{is_right_brace, is_semicolon};
use css_values::types::Property;
use style_tokens::CssToken;

/// Where declarations stand.
#[derive(Clone, Copy, Debug, PartialEq, Eq)]
pub enum Context {
    /// In a `style` attribute.
    Inline,
    /// In a style rule.
    Rule,
    /// In a block of keyframes.
    Block,
}

/// Whether they stand in a `style` attribute.
fn is_inline(context: Context) -> bool
    ensures { result ≡ is_inline context }
{
    matches!(context, Context::Inline)
}

/// Whether they stand in a block of keyframes.
pub(crate) fn is_block(context: Context) -> bool
    ensures { result ≡ is_block context }
{
    matches!(context, Context::Block)
}

/// Whether a property can be animated.
fn is_animatable(property: Property) -> bool
    ensures { result ≡ is_animatable property }
{
    matches!(
        property,
        Property::BackgroundColor
            | Property::Background
            | Property::Opacity
            | Property::Visibility
            | Property::Left
            | Property::Top
            | Property::Width
            | Property::Height
    )
}

/// Whether it is that of a keyframe's easing.
fn is_easing(property: Property) -> bool
    ensures { result ≡ is_easing property }
{
    matches!(property, Property::AnimationTimingFunction)
}

/// Whether a property may stand there.
pub(crate) fn is_allowed(context: Context, property: Property) -> bool
    ensures { result ≡ is_allowed context property }
{
    !is_block(context) || is_animatable(property) || is_easing(property)
}

/// Whether a property has exactly one easing there.
pub(crate) fn has_one_easing(context: Context, property: Property) -> bool
    ensures { result ≡ has_one_easing context property }
{
    is_block(context) && is_easing(property)
}

/// Whether the declarations are closed where these tokens are left.
pub(crate) fn is_closed(context: Context, tokens: &[CssToken]) -> bool
    ensures { result ≡ is_closed context tokens.now }
{
    match tokens.split_first() {
        Some((first, _)) => !is_inline(context) && is_right_brace(first.kind),
        None => is_inline(context),
    }
}

/// Whether a declaration ends where these tokens are left.
pub(crate) fn is_ended(context: Context, tokens: &[CssToken]) -> bool
    ensures { result ≡ is_ended context tokens.now }
{
    match tokens.split_first() {
        Some((first, _)) => is_semicolon(first.kind) || is_closed(context, tokens),
        None => is_closed(context, tokens),
    }
}
