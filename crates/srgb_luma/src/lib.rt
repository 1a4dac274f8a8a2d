//! How light a colour is, and when a change of colour is a rise or a fall of luminance.
//!
//! A page flashes by opposing changes of luminance, so whatever looks for flashes, and whatever
//! checks a witness of them, stands on the tests of this crate. `lin` reads the linear light of a
//! channel from a table, `luma` weighs three of them, and `is_rise` and `is_fall` compare two
//! colours; who compares one luminance with many has bounds for it by `rises_below` and
//! `rises_from`. Where a pixel's colour is known only between two ends, as a tint, `rise_possible`,
//! `rise_sure` and the two falls compare the ends that allow most and least.
//! The key clause is that of `lin`: each entry is the greatest whole number below the curve of
//! WCAG 2.2's relative luminance, by powers of whole numbers and with no rounding but that one.
//! `at_most` says that sums of these numbers fit. Facts on linear light and luminance that callers
//! need, such as that they grow with each channel, stand in `proofs/`.
//!
//! It does not say how far a real display is from this curve, and knows nothing of saturated red.
#![tactic(auto)]

mod change;
mod linear;
mod luminance;
mod tints;

pub use change::{is_fall, is_rise, rises_below, rises_from};
pub use linear::lin;
pub use luminance::luma;
pub use tints::{fall_possible, fall_sure, rise_possible, rise_sure};
