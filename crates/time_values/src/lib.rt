//! Values in time: progress, phases, intervals, easings, slots and horizons at single places, as others give them.
//!
//! The definitions of `page_model` say what a page does, frame by frame. All else is proved against them, so an error in one of them
//! would be proved too. Each law here is the contract of a function that does nothing: its `ensures` names a statement of `specs/`,
//! and what proof it needs stands in `proofs/`. Most are the answers of another implementation at single places, which the
//! definitions give too, since the checker computes them. Beside some stands a wrong definition, close to the right one, with an
//! example that tells them apart. `Examples` has the small animations that `horizon_laws` and `page_values` speak of too. The key
//! clause is `ActiveValues`: the progress of animations that run.
//!
//! It does not say what holds at other places, nor that a browser does what the definitions say.
#![tactic(auto)]

mod easing_values;
mod horizon_values;
mod keyframe_values;
mod phase_laws;
mod progress_values;
mod slot_values;

pub use easing_values::{curve_points, steps_at_both_or_neither, steps_at_one_side};
pub use horizon_values::{period_values, settled_values, video_horizons};
pub use keyframe_values::{
    interval_relation_agrees, last_reached, missing_ends, wrong_keyframes_break,
};
pub use phase_laws::{phase_boundaries, wrong_phase_breaks};
pub use progress_values::{
    progress_active, progress_after, progress_before, progress_over_1001, progress_paused,
};
pub use slot_values::{halves_go_up, held_in_range, other_slot_values};
