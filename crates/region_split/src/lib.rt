//! Into which cells the boxes of a scene cut the viewport.
//!
//! All pixels of a cell show the same, so whoever judges windows looks at one pixel of each: [`Cuts`]
//! are the columns and rows at which a box begins or ends, and the rectangles between them. The key
//! clause is that of `Cuts::of`: its edges are those of the definition, by the states of the layers
//! in the frames that are looked at, and each layer covers two pixels of a cell alike, surely, surely
//! not or maybe. It refuses exactly where cells times frames are too many to judge. What a list of
//! edges always is, `AreSound`, is what the search for the greatest flagged area asks for.
//!
//! Boxes may move and grow, and where they are may be known loosely: then each place at which a box
//! may begin or end is an edge. It says nothing of what a box shows, nor whether it is hidden: a hidden
//! box has edges too.
#![tactic(auto)]

mod cuts;
mod listing;
mod marks;
mod moving;
mod types;

pub use cuts::Cuts;
pub use moving::{frames_of, may_move};
pub use types::{CutFault, Rect};
