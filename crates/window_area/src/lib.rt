//! Where a 341 by 256 rectangle holds the most flagged pixels.
//!
//! Boxes cut the viewport into cells, and in one window of time each cell flashes or does not. Whoever
//! judges that window asks here whether a rectangle of WCAG 2.2's size holds too many flashing
//! pixels: [`greatest`] gives the greatest area, and the first position that has it. The key clauses
//! are `most`, that no whole position has more, not even one past the viewport's ends, and `has`,
//! that the told one has it. A window slides from edge to edge, as what it holds is greatest only
//! where an edge meets one of its ends; no pixel is looked at. Where no rectangle of a row can hold more
//! than the best before, its columns aren't gone through; [`greatest_above`] asks for what is more than a
//! limit, and passes over more rows. [`total_area`] gives the number of all flashing pixels, which is found
//! in less time and which no rectangle exceeds.
//!
//! It does not say how much is too much, nor which cells are flagged. That the area is the number of
//! marked pixels of the definition of a bad window stands in `proofs/`.
#![tactic(auto)]

mod best;
mod columns;
mod strip;
mod total;
mod window;

pub use best::{Best, greatest, greatest_above};
pub use total::total_area;
