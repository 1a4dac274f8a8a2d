//! Laws of edges and cells: what it is worth to cut the viewport by the places at which boxes begin and end.
//!
//! The definitions of `page_model` say which places are edges; each law here is the contract of a function that does
//! nothing, its `ensures` names a statement of `specs/`, and the proof stands in `proofs/`. Nobody calls this crate;
//! its lemmas are for whoever cuts a scene, and for whoever judges the cells one by one. The key clause is
//! `BoxesCoverCellsAlike`: a box covers two pixels of a cell alike, surely, surely not or maybe, in each frame that it
//! is cut in, be it the same frames for all boxes or its own for each.
//!
//! It does not say how edges are found or listed, nor what a pixel shows.
#![tactic(auto)]

mod cells;
mod runs;

pub use cells::{boxes_cover_cells_alike, cuts_are_one, pixels_lie_in_cells};
pub use runs::runs_exist_below;
