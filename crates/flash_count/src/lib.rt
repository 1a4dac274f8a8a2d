//! Whether the tints of a pixel flash more than three times within a window of one second.
//!
//! Four flashes are eight opposing changes, so nine frames whose changes are opposed in turn: a chain, of
//! rises and falls of luminance, or of changes into and out of saturated red. Whoever judges windows pushes
//! each frame's tint into a row of words by [`row_push`], or into a [`Tracker`] that owns one, and is told
//! whether the last window is flagged; who writes a witness asks [`chain`] for the nine frames to tell. The
//! key clauses: a flag is true exactly where the last tints have a chain, and the nine places of `chain` are
//! the first of all. The frames of a chain need not be neighbours. A tint is known between two ends, so there
//! are chains of possible changes and of sure ones.
//!
//! A row stands for the tints that were pushed (`Rows`): it holds, for each frame of the last window and each
//! change, where the latest chain starts that ends there with this change. A tint that stays costs a
//! constant: each start is one frame further off. It says nothing of how many pixels flash. What a list of
//! tints has to do with frames stands in `proofs/`.
#![tactic(auto)]

mod rows;
mod tracing;
mod tracking;

pub use rows::{row_begin, row_push, row_words};
pub use tracing::{Trace, chain};
pub use tracking::{Flag, Tracker};
