//! The tints of cells: how they look in each frame.
//!
//! Boxes cut the viewport into cells, and all pixels of a cell look alike in every frame, so one pixel tells of
//! each. Whoever judges windows, or tells which frames of one flash, stands on this crate: `sweep`, `cell_flags`
//! and `witness_make`. [`tints_of_cells`] gives the tints of all cells in some frames, frame by frame;
//! [`tints_in_frame`] those of chosen cells in one frame, without memory, and [`next_tints`] in the frame after it,
//! where only those are painted anew at which something changed. The states of the layers are worked out once a
//! frame. The key clauses, `AreTintsOfCells` and `AreTintsIn`, say that each is the tint of the cell's first pixel
//! by the own kind of enclosure, with its ends in order.
//!
//! The frames and the cells are any that are asked for. That the cells are those of the scene, and so that a cell's
//! other pixels look as its first one does, is not said here; nor is when a change of tint is a flash.
#![tactic(auto)]

mod following;
mod tints;

pub use following::next_tints;
pub use tints::{tints_in_frame, tints_of_cells};
