//! Laws of safe scenes and bad windows, and of what is computed where no easing is a curve.
//!
//! Nobody calls this crate. Whoever wants to believe the definitions of `page_model` reads it beside them: each law is the contract
//! of a function with no parameters and an empty body, whose clause names the statement in `specs/`, and the comment on the function
//! names a wrong definition that the law refuses. It stands on the lemmas of `state_laws`, by which there are runs to speak of, and of
//! `fraction_laws`. The key clause is `SafeWhereNoneIsBad`: a valid scene is safe exactly where none of its windows is bad, at any
//! position. That both happen is shown by a page that rests and one that blinks.
//!
//! It does not say how a curve is judged, nor that any code finds the bad windows.
#![tactic(auto)]

mod computed;
mod safety;

pub use computed::{
    channel_is_computed, run_is_computed, safety_is_computed, shown_is_computed, slot_is_computed,
    state_is_computed,
};
pub use safety::{
    bad_and_safe_exclude, bad_by_looks, blinking_is_bad, one_run_tells, runs_look_alike,
    safe_by_one_painting, safe_where_none_is_bad, still_is_safe,
};
