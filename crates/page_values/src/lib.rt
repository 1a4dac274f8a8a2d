//! Values of pages: light and red of colours, a chain of greys, and the cascade, states, cells and scene of small pages.
//!
//! The definitions of `page_model` say what a page does, frame by frame, and when it flashes. All else is proved against them, so an
//! error in one of them would be proved too. Each law here is the contract of a function that does nothing: its `ensures` names a
//! statement of `specs/`, and the proof stands in `proofs/`. They are the answers of another implementation at single places, which
//! the definitions give too, since the checker computes them; and winning declarations exist in general. The key clause is
//! `PageValues`: a small page has the scene that it should have, and is refused where it should be.
//!
//! It does not say what holds at other places, nor that a browser paints what the definitions say.
#![tactic(auto)]

mod cascade_values;
mod cell_values;
mod chain_values;
mod light_values;
mod red_values;
mod scene_values;
mod small_page;
mod winner_laws;

pub use cascade_values::{
    animation_values, match_values, name_values, weight_values, winner_values,
};
pub use cell_values::{sliding_box_cuts, three_boxes_cut};
pub use chain_values::seventeen_greys;
pub use light_values::{luma_values, rise_thresholds};
pub use red_values::{chromaticity_values, far_edge, red_changes, saturated_edge};
pub use scene_values::{alpha_values, half_box, lamp_states, sliding_box};
pub use small_page::page_has_scene;
pub use winner_laws::winners_exist;
