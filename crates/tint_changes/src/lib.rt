//! The changes that two tints make, and the first chain of two opposing ones in a list of tints.
//!
//! Who counts flashes asks which of eight changes lie between two tints: rises and falls of luminance and changes into and
//! out of red, each as a possible and as a sure one. [`Change::is_made`] tells it of one change; [`made_by_light`] and
//! [`made_by_red`] tell it of all, by what [`next_tint`] looks up once for a tint that is compared with many. A chain is
//! nine places of a list whose changes are two opposing ones in turn: [`first_chain`] has the first of all, place by place
//! from the front. The key clauses: each test is exactly the definition's. It says nothing of windows and frames.
#![tactic(auto)]

mod changes;
mod counting;
mod made;
mod tracing;

pub use changes::{Change, Opposing, SURE, SURE_RED};
pub use made::{
    Light, Made, NextTint, are_none, is_single, light_of, made_by_light, made_by_red, may_be_red,
    next_tint,
};
pub use tracing::{FRAMES, first_chain};
