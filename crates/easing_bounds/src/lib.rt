//! The eased value of an input: CSS Easing Functions Level 1.
//!
//! What shows a value between two keyframes asks this crate how far on its way the value is. [`eased`] is the only
//! call. Its key clause is that the answer is the definition's: the input itself for `linear`, and for `steps` the
//! jumps that the current step has made over all the jumps that there are. Nothing there is rounded. A cubic curve's
//! value is no fraction between its ends: the answer is then the two ends of its own interval, in parts of 2^30. What
//! both reach the value reaches, what it reaches one of them does, and each is less than 2^-16 away from it.
//!
//! Inputs are from 0 to 1, and so is each fraction that is told; a curve may go below 0 and above 1. It takes no before
//! flag, which the easing of a keyframe has not.
#![tactic(auto)]

mod curve;
mod easings;
mod steps;
pub mod types;

pub use easings::eased;
