//! Style sheets: their rules, and their keyframe sets by name.
//!
//! [`read_sheet`] gives the [`Sheet`] that a style text spells, or the first fault of the text with its place;
//! [`read_inline`] the declarations of a `style` attribute. Those who load a page stand on both, and the cascade
//! on the sheet. Their clauses say that what is given is spelled and what is spelled is given, that a fault is
//! the first one by the order in which a text is judged, and that a text has one reading at most; by
//! [`every_sheet_is_judged`] it has one.
//!
//! A sheet is rules and keyframe sets one after the other; selectors are read by `css_selectors`, offsets and
//! keyframes by `css_parts`, and declarations by `css_declarations`. The grammar speaks of whole lists of tokens
//! and of what is left of them, and the code reads with one look ahead. A set that is put is the one of its name,
//! and each other name keeps its own ([`one_set_a_name`]).
//!
//! Which rules match an element, and which declaration wins, is not said here.
#![tactic(auto)]

mod keyframes;
mod laws;
mod reading;
mod rules;
mod sheet;

pub use css_declarations::{SheetFault, every_inline_is_judged, one_inline_reading, read_inline};
pub use laws::{bad_sheets_are_stuck, every_sheet_is_judged, one_set_a_name, one_sheet_reading};
pub use reading::read_sheet;
pub use sheet::Sheet;
