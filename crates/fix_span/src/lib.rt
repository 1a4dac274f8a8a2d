//! Exact and enclosed numbers, on which all values between two keyframes and all coordinates of colours are computed.
//!
//! A [`Frac`] is a fraction, a [`Span`] the numbers between two ends in parts of a power of two, and a [`Loose`] the
//! least and the greatest whole value that something may take. What is computed with numbers that are known exactly, or
//! only between two ends, is written once over the trait [`Encloses`]: whole numbers, sums, differences, products and
//! rounding half up. Its key clauses are its laws: a rational point in each operand gives the sum, the difference or the
//! product as a point of the result, and the rounding of each point lies between the ends of the rounded number. That
//! [`mix`], the value on the way from one number to another, encloses the exact value follows from these laws alone.
//!
//! A `Frac` is a single point and its results are exact. The ends of a `Span` are exact too: an end that isn't a whole
//! number of parts goes to the floor or the ceiling, outwards. No call refuses or takes memory: that a result fits is a
//! condition of each call, and which numbers come up is for the callers to say.
#![tactic(auto)]

mod corners;
mod encloses;
mod frac;
mod loose;
mod quotient;
mod rounding;
mod scale;
mod span;
mod span_ops;

pub use encloses::{Encloses, mix};
pub use frac::Frac;
pub use loose::Loose;
pub use span::Span;
