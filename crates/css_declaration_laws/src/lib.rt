//! The value of each declaration, spelled from its parts, and that it is read so.
//!
//! `css_value_laws` has the grammar of single values and of lists as relations. This crate has the two things that
//! stand above them: the shorthand `animation`, whose items are words that take slots, and the value of each of the 21
//! properties. Its key law is [`declarations_are_spelled`]: the exact value that `declaration` of `css_values` gives
//! is the one that the words spell, `OverLimit` stands exactly where they spell one past a limit, and `BadValue`
//! exactly where they spell neither; by [`every_declaration_is_judged`] one of the three is so. As there, each public
//! function has no parameters and an empty body.
//!
//! What tokens a text has is not said here, nor which declaration wins.
#![tactic(auto)]

mod properties;
mod shorthand;

pub use properties::{
    answers_are_spelled, declarations_are_spelled, every_declaration_is_judged,
    longhands_are_spelled, properties_are_named,
};
pub use shorthand::items_are_spelled;
