//! How each property of a layer goes in a frame: what the layer's animations make of it, where they make anything.
//!
//! What puts the state of a layer together asks this crate; below it, timing says how far an animation is, the
//! keyframe sets between which values a property then is, the easing how far on its way, and the slots which whole
//! value that makes. A way goes from one value to another, with so much of it made as lies between two ends, which
//! are one where no curve eases; where a curve does, the values at both are told, the least and the greatest.
//! [`found_at`] goes through the animations from the last to the first and gives each property the way of the first
//! that it meets which has an effect and names it, and [`fill_still`], [`alpha_still`], [`pixels_still`] and
//! [`shown_still`] give what there is where a property stays. Its key clauses are `edges` and `look`: what is found
//! of a property is what the way by the last of its animations makes, and nothing exactly where there is none. No
//! call takes memory.
//!
//! Whether a declaration is important, and which state a layer then has, is not said here.
#![tactic(auto)]

mod found;
mod named;
mod parts;
mod search;
mod types;
mod way;
mod ways;

pub use found::{Fill, alpha_still, fill_still, pixels_still, shown_still};
pub use search::{Edges, Found, Look, found_at};
pub use types::Shown;
