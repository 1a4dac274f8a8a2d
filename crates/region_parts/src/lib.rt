//! The parts of a scene whose boxes repeat separately.
//!
//! Where all animations of a page together need too many frames, each part of the viewport may still do with few.
//! Whoever judges such a page asks here: [`Parted`] has the cells into which each box cuts the viewport in the frames
//! that it needs by itself, and of each cell the horizon of the layers that meet it: of the body where it has a
//! colour, and of each box that in one of its frames may be seen at the cell's first pixel. The key clause is that of
//! `Parted::of`: the parts are those of the definition, by the states of the layers, whatever they are, and it
//! refuses exactly where there are none, as a layer or a cell needs more than 100,000 frames, or cells times the
//! frames of the longest horizon are more than 4,194,304. Besides, each layer covers two pixels of a cell alike in
//! any frames.
//!
//! What is flagged in the cells isn't said here, nor whether the page as a whole needs too many frames.
#![tactic(auto)]

mod areas;
mod horizons;
mod joining;
mod meeting;
mod needs;
mod parted;
mod types;
mod work;

pub use parted::Parted;
pub use types::PartFault;
