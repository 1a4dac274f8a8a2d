//! What a row of words tells of the tints of a pixel, and the words of the next frame.
//!
//! Who keeps such rows asks [`next_words`] for the words of the next frame's tint, and puts them into their place. A row
//! holds, for each frame that a window looks back on and each change, where the latest chain starts that ends there with
//! this change. A tint that stays costs a constant: each start is one frame further off. Where no tint of the window is
//! far enough from the next one for a change, that costs a constant too: behind the words stand the bounds of their
//! light. Else one look back is taken, from the end of one run of equal tints to that of the run before. The key clause:
//! the words tell of the next frame what the definitions say, whatever tints the row stands for. It says nothing of
//! flags.
#![tactic(auto)]

mod bounds;
mod ended;
mod latest;
mod next;
mod starts;
mod still;
mod words;

pub use bounds::Bounds;
pub use ended::{Ended, ended_word};
pub use next::{Next, next_words};
