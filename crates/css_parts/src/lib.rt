//! The parts that keyframe sets are made of: offsets and keyframes.
//!
//! The reader of style sheets stands on it. [`offsets_at`] reads a list of offsets at the front of some tokens, and
//! leaves the others; [`add_frames`] puts the keyframes of a block among those of a set. Their clauses say that what is
//! given is a reading of the tokens, and that a fault is the first one.
//!
//! In a keyframe set each offset that a block lists has one keyframe, with the last setting of each property:
//! [`keyframes_are_of_blocks`] and [`keyframes_have_the_last_values`].
//!
//! Here stands the grammar of keyframe sets. What a grammar is made of, and selectors, are `css_selectors`' to say.
//!
//! What stands in braces is read by those above.
#![tactic(auto)]

mod frames;
mod given;
mod laws;
mod offsets;
pub mod tokens;

pub use frames::{add_frames, easing_of, settings_of};
pub use given::offsets_at;
pub use laws::{keyframes_are_of_blocks, keyframes_have_the_last_values};
