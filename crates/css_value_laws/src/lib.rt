//! The values of style text, spelled from their parts, and that they are read so.
//!
//! The crates that read values say what their calls give by functions that read words from left to right. The crates of
//! laws give the grammar of values once more, as relations that put words together and have no state; this one has the
//! words of a table, names, and lists: items with commas between ([`lists_are_spelled`]). Each public function here has
//! no parameters and an empty body, and its clauses are laws: a reading gives a value exactly where the words spell it,
//! is past a limit exactly where they spell one past it, and gives neither exactly where they spell none. So words spell
//! one value at most. The laws on numbers, colours and easings are handed on, and `css_declaration_laws` has the
//! shorthand and the properties above it.
//!
//! Users who doubt a reading function read the relation in `specs/` beside the public standard, and nothing else. The
//! bytes of commas are those of their tokens' kind and aren't looked at.
#![tactic(auto)]

mod keywords;
mod lists;

pub use css_colour_laws::colours_are_spelled;
pub use css_easing_laws::easings_are_spelled;
pub use css_quantity_laws::{
    lengths_are_spelled, nothing_is_spelled, plain_numbers_are_spelled, times_are_spelled,
};
pub use keywords::{keywords_are_spelled, names_are_spelled};
pub use lists::lists_are_spelled;
