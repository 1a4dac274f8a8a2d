//! When a colour is a saturated red, where it lies in the chromaticity diagram, and when a change of colour goes into or out
//! of red.
//!
//! A page flashes red by changes into and out of saturated red, so whatever counts red flashes, and whatever checks a witness
//! of them, stands on the four tests of this crate. `saturated` compares linear light, exactly. `chroma` encloses the
//! coordinates u' and v' of a colour in the CIE 1976 UCS diagram by their floors and ceilings in parts of 2^40, so the
//! distance of two colours lies between a least and a greatest one: a change between two single colours is possible by the
//! greatest and sure by the least. Where a tint isn't a single colour no red change is sure, and one is possible where the
//! tint that has to be saturated has a saturated corner. Saturation is tested first: it costs three entries of a table.
//! `red_changes` makes the four tests at once. The key clauses are those of the tests, each exactly the definition's.
//!
//! It doesn't say how wide an enclosure is beside the distance that is looked for: laws of changes do.
#![tactic(auto)]

mod change;
mod coordinates;
mod distance;
mod saturation;
pub mod types;

pub use change::{into_possible, into_sure, out_possible, out_sure, red_changes};
pub use coordinates::chroma;
pub use saturation::{has_saturated, saturated};
