// The rules of a style sheet.
use crate::animation::{Count, Direction, Fill};
use crate::colour::Rgba;
use crate::easing::Easing;
use crate::list::List;
use crate::name::Name;

/// A compound selector: a tag name, ids and classes, all of which an element must have.
#[derive(Drop)]
pub struct Compound {
    pub tag: Option<Name>,
    pub ids: List<Name>,
    pub classes: List<Name>,
}

/// A longhand property with its declared value: lengths in hundredths of a pixel, opacity in thousandths, a
/// colour's alpha in parts of 255,000, times in ms, counts and curve points in thousandths. A name is `None` for the keyword `none`.
#[derive(Drop)]
pub enum Longhand {
    Position,
    Left(i32),
    Top(i32),
    Width(i32),
    Height(i32),
    Colour(Rgba),
    Opacity(u16),
    Visibility(bool),
    ZIndex(i32),
    Margin,
    Padding,
    Names(List<Option<Name>>),
    Durations(List<u32>),
    Easings(List<Easing>),
    Delays(List<i32>),
    Counts(List<Count>),
    Directions(List<Direction>),
    Fills(List<Fill>),
    Paused(List<bool>),
}

/// A declaration: a longhand with its value, whether it is important, and the byte of the file at which its
/// property's name begins.
#[derive(Drop)]
pub struct Decl {
    pub longhand: Longhand,
    pub important: bool,
    pub place: u32,
}

/// A style rule: its selectors and its declarations, in the order of the file.
#[derive(Drop)]
pub struct Rule {
    pub selectors: List<Compound>,
    pub decls: List<Decl>,
}
