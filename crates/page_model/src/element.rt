// The elements of a page.
use crate::list::List;
use crate::name::Name;
use crate::place::Place;

/// The tag of an element that is painted.
#[derive(Clone, Copy, Debug, PartialEq, Eq)]
pub enum Tag {
    Body,
    Div,
    Span,
}

/// An element: its tag, its id and its classes, and where the text of its `style` attribute lies (from 0 to 0
/// where it has none).
#[derive(Drop)]
pub struct Element {
    pub tag: Tag,
    pub id: Option<Name>,
    pub classes: List<Name>,
    pub style: Place,
}

/// A page: its elements, the first of which is the body, and where the text of its `style` element lies (from 0
/// to 0 where it has none).
#[derive(Drop)]
pub struct PageText {
    pub elements: List<Element>,
    pub sheet: Place,
}
