//! The rows of cells: one row of a pool for each cell, and one frame after another pushed into all of them.
//!
//! Whoever goes through the frames of a scene once, and keeps no tints, takes a row for each cell by [`take_rows`],
//! begins them by [`begin_rows`], pushes each frame's tints by [`push_frame`], which tells the flag of each cell, and
//! gives all rows back by [`give_rows`]. The key clause, `IsPushed`, says of each cell that its row stands for one
//! tint more, and that its flag is that of the last tints of the window. No call takes memory.
//!
//! Which tints the cells have is not said here, nor what a flag means for a page.
#![tactic(auto)]

mod pushing;
mod taking;

pub use pushing::{begin_rows, push_frame};
pub use taking::{give_rows, take_rows};
