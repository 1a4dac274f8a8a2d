//! How far an animation is at a frame: the directed progress of Web Animations Level 1, for the timing properties
//! of CSS Animations Level 1.
//!
//! Whatever shows a frame asks this crate first; where it answers, the keyframes say between which values the
//! element then is. [`progress`] is the only public call. Its key clause is that it is the definition, in all
//! directions, fills and counts, with delays before the start, for paused animations and for those that never end:
//! the fraction itself, and none exactly where the animation has no effect. Times are whole numbers, so nothing is
//! rounded, and the denominator stays below 2^35.
//!
//! Each step of the standard is a small function with the step's definition as its clause. Which keyframes a
//! progress lies between, and how it is eased, is not said here.
#![tactic(auto)]

mod directed;
mod extent;
mod iterations;
mod phases;
mod ratio;
mod times;

pub use directed::progress;
