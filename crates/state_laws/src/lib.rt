//! Laws of exact values: a slot, a layer and a window have one at most, and it is impossible that they have none.
//!
//! Nobody calls this crate. Whoever wants to believe the definitions of `page_model` reads it beside them: each law is the contract
//! of a function with no parameters and an empty body, whose clause names the statement in `specs/`, and the comment on the function
//! names a wrong definition that the law refuses. Some of those stand in `specs/` too, in modules `Wrong..`, each with an example on
//! which it breaks a law. `safety_laws` and `wide_laws` stand on its lemmas. The key clause is `RunExists`: exact states are relations,
//! since a curve's value is no fraction, and it is impossible that a window has none, so neither safety nor a bad window is empty
//! talk.
//!
//! It does not say what is seen of a state, nor that the definitions are those of the public standards.
#![tactic(auto)]

mod runs;
mod slots;
mod wrong;

pub use runs::{channel_has_value, shown_has_value, slot_has_value, some_run_exists, state_exists};
pub use slots::{channel_is_unique, shown_is_unique, slot_is_unique, state_is_unique};
pub use wrong::{cover_run_breaks, half_down_breaks, nearer_breaks, some_breaks};
