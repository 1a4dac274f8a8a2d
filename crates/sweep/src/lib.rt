//! The verdict of a scene: whether its page is safe, has a bad window, or stays undecided.
//!
//! Who wants a page judged opens a [`Sweep`] with its scene and a viewport, and runs it. [`Sweep::open`] refuses a
//! scene that has too many cells, or that needs too many frames and can't be judged region by region; it takes all
//! memory, so [`Sweep::run`] never wants any. A run goes through the frames once, in their order: it pushes the
//! tint of each group of cells that look alike into the group's row, which tells the flag of its cells in the window
//! that ends there, and asks where the rectangle holds the most flagged pixels, if there are any. The key clause is
//! `IsVerdict`: `Fail` tells the first window that is surely bad and where it is so most, `Undecided` comes exactly
//! where none is surely bad and some is possibly bad, and `Pass` means that the scene is safe: all of it is said of
//! each window from the first frame on, for ever. A scene that is judged region by region passes or isn't opened.
//!
//! It speaks of states, cells, flags and horizons alone. Which frames of a bad window show it, a witness says.
#![tactic(auto)]

mod pass;
mod room;
mod sweep;
mod types;
mod windows;

pub use crate::sweep::Sweep;
pub use types::{OpenFault, Reason, Verdict};
