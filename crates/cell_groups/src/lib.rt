//! The groups of cells that look alike in all frames.
//!
//! Boxes cut the viewport into many cells, and many of these show the same: whoever follows the tints of cells frame
//! by frame follows those of one cell a group. [`Groups`] has the group of each cell, and of each group its first
//! cell. The key clause is that of `Groups::of`: in each frame that is looked at, each box covers the first pixel of
//! a cell and that of the first cell of its group alike, surely, surely not or maybe, whatever its states are. So both
//! pixels have one tint.
//!
//! A cell joins the group of the cell beside it or above it where no box tells the two apart: neither a box that
//! stays in its place and covers one of them alone, nor a box that moves and comes near. So there may be more groups
//! than need be. What the cells show isn't said here.
#![tactic(auto)]

mod alike;
mod groups;
mod homes;

pub use groups::Groups;
