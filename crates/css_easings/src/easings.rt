// Easings: CSS Easing Functions Level 1, as a profile.
ghost use Rattle.std.specs.Prelude.{◌≡◌, ◌≤◌, IfOk, IfSome, option_map};
ghost use Rattle.css_easings.specs.Easings.{curve_of, easing_function, easing_of, is_column, jump_at, jump_word, point_and_comma};
ghost use Rattle.css_easings.specs.Easings.{points_at, steps_at, steps_of, thousandths_at, thousandths_of};
ghost use Rattle.css_easings.specs.EasingViews.{pointed, written};
ghost use Rattle.page_model.specs.ValidScene.{IsEasing, least_steps};
ghost use Rattle.css_words.specs.Numerals.{signed_int};
ghost use Rattle.css_words.specs.NumeralViews.{seen};
ghost use Rattle.css_words.specs.Words.{words};

use crate::tables::{easing_named, jump_named};
use css_words::{
    Number, ValueFault, amount, behind_close, behind_comma, ended, function_at, ident_at,
    lone_ident, number_at, whole_at,
};
use page_model::{Easing, Jump};
use style_tokens::CssToken;

/// A number of thousandths with its sign.
#[derive(Clone, Copy)]
pub struct Thousandths {
    pub negative: bool,
    pub size: u64,
}

/// The points of a curve as they are written.
#[derive(Clone, Copy)]
pub struct Points {
    pub x1: Thousandths,
    pub y1: Thousandths,
    pub x2: Thousandths,
    pub y2: Thousandths,
}

/// A jump behind a comma, with the `)`.
#[tactic(auto, unfolding(crate::specs::Easings::jump_word))]
fn jump_word(text: &[u8], tokens: &[CssToken]) -> Option<Jump>
    ensures { result ≡ jump_word (words text.now tokens.now) }
{
    let rest = behind_comma(text, tokens)?;
    let (bytes, behind) = ident_at(text, rest)?;
    let jump = jump_named(bytes)?;
    let left = behind_close(text, behind)?;
    ended(jump, text, left)
}

/// `)`, or a comma, a word for the jump and `)`.
#[tactic(auto, unfolding(crate::specs::Easings::jump_at))]
fn jump_at(text: &[u8], tokens: &[CssToken]) -> Option<Jump>
    ensures { result ≡ jump_at (words text.now tokens.now) }
{
    if let Some(rest) = behind_close(text, tokens) {
        if let Some(jump) = ended(Jump::End, text, rest) {
            return Some(jump);
        }
    }
    jump_word(text, tokens)
}

/// `steps(`, a whole number, and the jump.
#[tactic(auto, unfolding(crate::specs::Easings::steps_at))]
fn steps_at(text: &[u8], tokens: &[CssToken]) -> Option<(u64, Jump)>
    ensures { result ≡ steps_at (words text.now tokens.now) }
{
    let inside = function_at(b"steps(", text, tokens)?;
    let (count, rest) = whole_at(text, inside)?;
    let jump = jump_at(text, rest)?;
    Some((count, jump))
}

/// The least number of steps: two, where they jump at neither end.
fn least_steps(jump: Jump) -> u64
    ensures { result ≡ least_steps jump }
{
    match jump {
        Jump::Neither => 2,
        Jump::Start | Jump::End | Jump::Both => 1,
    }
}

/// So many steps.
#[tactic(auto, unfolding(crate::specs::Easings::steps_of))]
fn steps_of(count: u64, jump: Jump) -> Result<Easing, ValueFault>
    ensures { result ≡ steps_of count jump }
{
    if count < least_steps(jump) {
        Err(ValueFault::BadValue)
    } else if count > 1000 {
        Err(ValueFault::OverLimit)
    } else {
        Ok(Easing::Steps {
            count: count as u16,
            jump,
        })
    }
}

/// A number without unit, in thousandths.
#[tactic(auto, unfolding(crate::specs::Easings::thousandths_of))]
fn thousandths_of(number: Number<'_>) -> Option<Thousandths>
    ensures { option_map written result ≡ thousandths_of (seen number.entry) }
{
    if !number.unit.is_empty() {
        return None;
    }
    let size = amount(3, number)?;
    Some(Thousandths {
        negative: number.negative,
        size,
    })
}

/// Such a number at the front, and the tokens behind it.
#[tactic(auto, unfolding(crate::specs::Easings::thousandths_at))]
fn thousandths_at<'a>(
    text: &'a [u8],
    tokens: &'a [CssToken],
) -> Option<(Thousandths, &'a [CssToken])>
    ensures { option_map (λ f. (written f.0, words text.now f.1.now)) result ≡ thousandths_at (words text.now tokens.now) }
{
    let (number, rest) = number_at(text, tokens)?;
    let thousandths = thousandths_of(number)?;
    Some((thousandths, rest))
}

/// Such a number and a comma.
#[tactic(auto, unfolding(crate::specs::Easings::point_and_comma))]
fn point_and_comma<'a>(
    text: &'a [u8],
    tokens: &'a [CssToken],
) -> Option<(Thousandths, &'a [CssToken])>
    ensures { option_map (λ f. (written f.0, words text.now f.1.now)) result ≡ point_and_comma (words text.now tokens.now) }
{
    let (point, behind) = thousandths_at(text, tokens)?;
    let rest = behind_comma(text, behind)?;
    Some((point, rest))
}

/// `cubic-bezier(`, four numbers with commas between, `)`.
#[tactic(auto, unfolding(crate::specs::Easings::points_at))]
fn points_at(text: &[u8], tokens: &[CssToken]) -> Option<Points>
    ensures { option_map pointed result ≡ points_at (words text.now tokens.now) }
{
    let inside = function_at(b"cubic-bezier(", text, tokens)?;
    let (x1, second) = point_and_comma(text, inside)?;
    let (y1, third) = point_and_comma(text, second)?;
    let (x2, fourth) = point_and_comma(text, third)?;
    let (y2, behind) = thousandths_at(text, fourth)?;
    let rest = behind_close(text, behind)?;
    ended(Points { x1, y1, x2, y2 }, text, rest)
}

/// Whether an x lies from 0 to 1.
#[tactic(auto, unfolding(crate::specs::Easings::is_column))]
fn is_column(x: Thousandths) -> bool
    ensures { result ≡ is_column (written x) }
{
    (!x.negative || x.size == 0) && x.size <= 1000
}

/// A signed number of thousandths.
fn height(y: Thousandths) -> i16
    requires { y.size ≤ 4000 }
    ensures { result ≡ signed_int y.negative y.size }
{
    if y.negative {
        -(y.size as i16)
    } else {
        y.size as i16
    }
}

/// A curve with these points.
#[tactic(auto, unfolding(crate::specs::Easings::curve_of, crate::specs::Easings::is_column))]
fn curve_of(points: Points) -> Result<Easing, ValueFault>
    ensures { result ≡ curve_of (pointed points) }
{
    let Points { x1, y1, x2, y2 } = points;
    if !is_column(x1) || !is_column(x2) {
        return Err(ValueFault::BadValue);
    }
    if y1.size > 4000 || y2.size > 4000 {
        return Err(ValueFault::OverLimit);
    }
    Ok(Easing::Cubic {
        x1: x1.size as u16,
        y1: height(y1),
        x2: x2.size as u16,
        y2: height(y2),
    })
}

/// An easing that is a function.
#[tactic(auto, unfolding(crate::specs::Easings::easing_function))]
fn easing_function(text: &[u8], tokens: &[CssToken]) -> Result<Easing, ValueFault>
    ensures { result ≡ easing_function (words text.now tokens.now) }
{
    if let Some((count, jump)) = steps_at(text, tokens) {
        return steps_of(count, jump);
    }
    match points_at(text, tokens) {
        Some(points) => curve_of(points),
        None => Err(ValueFault::BadValue),
    }
}

/// An easing: a word, `steps(..)` or `cubic-bezier(..)`.
pub fn easing(text: &[u8], tokens: &[CssToken]) -> Result<Easing, ValueFault>
    ensures exact { result ≡ easing_of (words text.now tokens.now) }
    ensures valid { IfOk result IsEasing }
{
    any_easing(text, tokens)
}

/// An easing.
#[tactic(auto, unfolding(crate::specs::Easings::easing_of))]
fn any_easing(text: &[u8], tokens: &[CssToken]) -> Result<Easing, ValueFault>
    ensures { result ≡ easing_of (words text.now tokens.now) }
{
    if let Some(bytes) = lone_ident(text, tokens) {
        if let Some(easing) = easing_named(bytes) {
            return Ok(easing);
        }
    }
    easing_function(text, tokens)
}
