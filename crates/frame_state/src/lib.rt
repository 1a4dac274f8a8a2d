//! The state of a layer in a frame: its colour, its cover, its alpha, whether it is shown and its box, in whole numbers.
//!
//! What paints a pixel asks this crate for the states of all layers; below it, `layer_ways` says what the animations of
//! a layer make of each property, and what there is where a property stays.
//! [`layer_at`] and [`states_at`] put these together: of a layer's animations the last that has an effect and
//! names a property gives its value, unless the winning declaration is important, and each value is rounded
//! half up and held in its range. Where a curve eases, no more is known than two ends between which its value
//! lies; then each whole value has a least and a greatest, and it may be open whether the layer is shown. Their
//! key clause is that a state is that of the definitions, as the program's own kind of enclosure knows it: so it
//! holds the exact state, lies in what the wide kind knows, and is the exact state where no curve eases. No call
//! takes memory.
//!
//! What a pixel then looks like is not said here.
#![tactic(auto)]

mod layers;
mod place;
mod types;

pub use layer_ways::Shown;
pub use layers::{layer_at, place_at, states_at};
pub use types::{LayerState, NOTHING, Place};
