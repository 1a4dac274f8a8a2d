//! Laws of the fractions that a scene's times make, and of the intervals between keyframes.
//!
//! What a user must believe is the definitions of `page_model`. Nobody runs a definition, so a slip in one would show nowhere. Each
//! law here is the contract of a function with no parameters and an empty body, whose clause names the statement in `specs/`, and the
//! comment on the function names a wrong definition that the law refuses. Nobody calls this crate: whoever wants to believe the
//! definitions reads it beside them, and `safety_laws` stands on its lemmas. The key clause is `IntervalIsComputed`: a property is
//! between the last stop that is reached and the one after it, and nowhere else.
//!
//! It does not say which value a property has on its way, nor that the definitions are those of the public standards.
#![tactic(auto)]

mod fractions;
mod intervals;

pub use fractions::{
    distance_is_part, distance_is_small, overall_is_quotient, progress_is_part, progress_is_small,
    stepped_is_part,
};
pub use intervals::{interval_exists, interval_is_computed};
