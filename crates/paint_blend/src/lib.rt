//! The tint of a pixel: the least and the greatest colour that it may have, channel by channel.
//!
//! Whatever asks for the colour of a pixel asks this crate; it takes the states of all layers from
//! `frame_state`, and paints them: the white canvas, the body where it has a colour, and the boxes in paint
//! order, each blended over what is there in eight bits. Painting begins at the topmost box that surely covers
//! the pixel and is opaque, as what lies under it isn't seen. [`tint_of`] paints states that are handed in, also
//! loose ones, and [`tint`] those of a frame. The key clause is that a tint is that of the definitions,
//! whatever the states are: a hull where a box may or may not be there, and both ends of each blending. So
//! `tint` holds the pixel's exact colour, and lies in the tint by states of the wide kind; by exact states a
//! tint is a single colour, the one that they paint. From one frame to the next few layers change: [`changed_in`] tells
//! which, and [`is_kept`] whether none of them may be at a pixel, so that its tint stays. No call takes memory.
//!
//! Which pixels always look alike, and what a change of colour means, is not said here.
#![tactic(auto)]

mod blending;
mod covering;
mod kept;
mod painting;
mod span;
mod topmost;

pub use kept::{changed_in, is_kept};
pub use painting::{tint, tint_of};
