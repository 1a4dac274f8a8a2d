//! The flags of cells: whether their pixels flash more than three times within a window of one second.
//!
//! Boxes cut the viewport into cells, and all pixels of a cell look alike in every frame. So whoever judges windows asks this
//! crate: [`flags_of_cells`] looks at one pixel of each cell, frame by frame, and tells for each window whether it possibly and
//! whether it surely flashes too often. The key clause, `AreFlags`, speaks of every pixel: with the states of the layers, whatever
//! they are, the flag of a cell in a window is that of each of its pixels by the pixel's own tints.
//!
//! The flags are those of both sorts of flashes, of luminance and of red. Where flagged pixels lie close together is not said.
#![tactic(auto)]

mod cells;
mod tracked;

pub use cells::flags_of_cells;
