//! Between which two keyframes a property is: CSS Animations Level 1, "Keyframes".
//!
//! What shows a frame asks this crate, with an animation's directed progress, from which value to which the
//! property is on its way there, by which easing and how far. [`names`] says whether a set names the property at
//! all, [`number_of`] tells two properties apart, and [`interval`] gives the interval. Its key clause is that the
//! interval is the definition's, which adds the element's own value at 0% and 100% where the set has none; here no list
//! of stops is built, and one walk over the keyframes finds the last stop that is reached and the first that isn't. The
//! distance is a fraction from 0 to 1 whose denominator is at most 10,000 times the progress's.
//!
//! How the distance is eased, and what value then stands, is not said here.
#![tactic(auto)]

mod around;
mod declaration;
mod intervals;
mod share;
mod stops;
pub mod types;

pub use declaration::declared;
pub use intervals::interval;
pub use stops::{names, number_of};
