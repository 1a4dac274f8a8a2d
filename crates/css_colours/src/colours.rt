// Colours: CSS Color Module Level 4, as a profile.
ghost use Rattle.std.specs.Prelude.{◌≡◌, IfOk, option_map};
ghost use Rattle.css_colours.specs.Colours.{alpha_at, channel_and_comma, channel_at, channels, colour_of};
ghost use Rattle.css_colours.specs.Colours.{hash_colour, opening_at, pair, rgb_of};
ghost use Rattle.css_words.specs.Words.{words};
ghost use Rattle.page_model.specs.ValidScene.{IsColour};

use crate::tables::colour_named;
use css_words::{
    ValueFault, behind_close, behind_comma, digit_value, ended, function_at, lone_hash, lone_ident,
    share_at, whole_at,
};
use page_model::Rgba;
use style_tokens::CssToken;

/// The value of two hexadecimal digits.
#[tactic(auto, unfolding(crate::specs::Colours::pair))]
fn pair(high: u8, low: u8) -> Option<u8>
    ensures { result ≡ pair high low }
{
    let high = digit_value(high);
    let low = digit_value(low);
    if high < 16 && low < 16 {
        Some(16 * high + low)
    } else {
        None
    }
}

/// A colour of four parts of 255 that are there: three channels and an alpha.
#[tactic(auto, unfolding(crate::specs::Colours::channels))]
fn channels(r: Option<u8>, g: Option<u8>, b: Option<u8>, alpha: Option<u8>) -> Option<Rgba>
    ensures { result ≡ channels r g b alpha }
{
    let r = r?;
    let g = g?;
    let b = b?;
    let a = 1000 * u32::from(alpha?);
    Some(Rgba { r, g, b, a })
}

/// A colour of three, four, six or eight hexadecimal digits behind a `#`.
#[tactic(auto, unfolding(crate::specs::Colours::hash_colour))]
fn hash_colour(bytes: &[u8]) -> Option<Rgba>
    ensures { result ≡ hash_colour bytes.now }
{
    if bytes.len() == 4 {
        return channels(
            pair(bytes[1], bytes[1]),
            pair(bytes[2], bytes[2]),
            pair(bytes[3], bytes[3]),
            Some(255),
        );
    }
    if bytes.len() == 5 {
        return channels(
            pair(bytes[1], bytes[1]),
            pair(bytes[2], bytes[2]),
            pair(bytes[3], bytes[3]),
            pair(bytes[4], bytes[4]),
        );
    }
    if bytes.len() == 7 {
        return channels(
            pair(bytes[1], bytes[2]),
            pair(bytes[3], bytes[4]),
            pair(bytes[5], bytes[6]),
            Some(255),
        );
    }
    if bytes.len() == 9 {
        return channels(
            pair(bytes[1], bytes[2]),
            pair(bytes[3], bytes[4]),
            pair(bytes[5], bytes[6]),
            pair(bytes[7], bytes[8]),
        );
    }
    None
}

/// A whole number, held to 255.
#[tactic(auto, unfolding(crate::specs::Colours::channel_at))]
fn channel_at<'a>(text: &'a [u8], tokens: &'a [CssToken]) -> Option<(u8, &'a [CssToken])>
    ensures { option_map (λ f. (f.0, words text.now f.1.now)) result ≡ channel_at (words text.now tokens.now) }
{
    let (whole, rest) = whole_at(text, tokens)?;
    Some((whole.min(255) as u8, rest))
}

/// Such a number and a comma.
#[tactic(auto, unfolding(crate::specs::Colours::channel_and_comma))]
fn channel_and_comma<'a>(text: &'a [u8], tokens: &'a [CssToken]) -> Option<(u8, &'a [CssToken])>
    ensures { option_map (λ f. (f.0, words text.now f.1.now)) result ≡ channel_and_comma (words text.now tokens.now) }
{
    let (channel, behind) = channel_at(text, tokens)?;
    let rest = behind_comma(text, behind)?;
    Some((channel, rest))
}

/// `rgb(` or `rgba(`, which mean the same.
#[tactic(auto, unfolding(crate::specs::Colours::opening_at))]
fn opening_at<'a>(text: &'a [u8], tokens: &'a [CssToken]) -> Option<&'a [CssToken]>
    ensures { option_map (λ rest. words text.now rest.now) result ≡ opening_at (words text.now tokens.now) }
{
    match function_at(b"rgb(", text, tokens) {
        Some(inside) => Some(inside),
        None => function_at(b"rgba(", text, tokens),
    }
}

/// A comma and an alpha in thousandths; a full one, where there is no comma.
#[tactic(auto, unfolding(crate::specs::Colours::alpha_at))]
fn alpha_at<'a>(text: &'a [u8], tokens: &'a [CssToken]) -> Option<(u16, &'a [CssToken])>
    ensures { option_map (λ f. (f.0, words text.now f.1.now)) result ≡ alpha_at (words text.now tokens.now) }
{
    match behind_comma(text, tokens) {
        Some(rest) => share_at(text, rest),
        None => Some((1000, tokens)),
    }
}

/// `rgb(` or `rgba(`, three whole numbers and an alpha or none with commas between, `)`.
#[tactic(auto, unfolding(crate::specs::Colours::rgb_of))]
fn rgb_of(text: &[u8], tokens: &[CssToken]) -> Option<Rgba>
    ensures { result ≡ rgb_of (words text.now tokens.now) }
{
    let inside = opening_at(text, tokens)?;
    let (r, behind_red) = channel_and_comma(text, inside)?;
    let (g, behind_green) = channel_and_comma(text, behind_red)?;
    let (b, behind_blue) = channel_at(text, behind_green)?;
    let (alpha, behind_alpha) = alpha_at(text, behind_blue)?;
    let rest = behind_close(text, behind_alpha)?;
    let a = 255 * u32::from(alpha);
    ended(Rgba { r, g, b, a }, text, rest)
}

/// A colour: `#` and three, four, six or eight hexadecimal digits, a name of the table, or `rgb(` or `rgba(`, three whole
/// numbers, an alpha or none, and `)`. Its alpha is in parts of 255,000, of which a fourth pair of digits counts thousands,
/// and a thousandth of a fourth number is 255.
pub fn colour(text: &[u8], tokens: &[CssToken]) -> Result<Rgba, ValueFault>
    ensures exact { result ≡ colour_of (words text.now tokens.now) }
    ensures valid { IfOk result IsColour }
{
    spelled(text, tokens)
}

/// A colour.
#[tactic(auto, unfolding(crate::specs::Colours::colour_of))]
fn spelled(text: &[u8], tokens: &[CssToken]) -> Result<Rgba, ValueFault>
    ensures { result ≡ colour_of (words text.now tokens.now) }
{
    if let Some(bytes) = lone_hash(text, tokens) {
        if let Some(colour) = hash_colour(bytes) {
            return Ok(colour);
        }
    }
    if let Some(bytes) = lone_ident(text, tokens) {
        if let Some(colour) = colour_named(bytes) {
            return Ok(colour);
        }
    }
    rgb_of(text, tokens).ok_or(ValueFault::BadValue)
}
