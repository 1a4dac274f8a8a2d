//! Easings.
//!
//! [`easing`] reads the words of an easing: a word as `linear`, `steps(` with a number of steps and where they jump, or
//! `cubic-bezier(` with the points of a curve in thousandths. Its clause `exact` says that it is the easing that the
//! words spell, `BadValue` exactly where they spell none and `OverLimit` exactly where they spell one with more steps
//! or a higher point than the limit; `valid`, that one which is given is in its limits. `css_values` has easings in
//! declarations and in the shorthand `animation`.
//!
//! Whether an easing can be judged, and what it makes of a progress, is not said here.
#![tactic(auto)]

mod easings;
mod tables;

pub use easings::easing;
