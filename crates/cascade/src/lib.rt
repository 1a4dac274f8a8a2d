//! From rules, keyframe sets, elements and style attributes to the scene that is judged: CSS Cascading and Inheritance,
//! and the lists of animation values of CSS Animations Level 1.
//!
//! [`resolve`] is the one call, made by those who load a page. Its clauses say that it gives the scene of its sources,
//! which is a valid scene, and that it refuses exactly where an element has a fault, with the fault of the first such
//! element: a box that lacks its place, size or colour, a body with a property that it may not have, a list of more
//! than eight animations. Sources have a scene or a first fault ([`every_source_is_resolved`]).
//!
//! Each element is a layer, with the values of its winning declarations. A sheet's keyframe sets that name no property
//! are left out, and animations are numbered among those that stay. How a rule matches and which declaration wins is
//! the business of the crate below.
#![tactic(auto)]

mod animations;
mod faults;
mod items;
mod laws;
mod layer;
mod layers;
mod longhands;
mod order;
mod properties;
mod resolving;
mod scene_fault;
mod tables;

pub use laws::every_source_is_resolved;
pub use resolving::resolve;
pub use scene_fault::SceneFault;
