//! Laws of tints: they hold colours and one another, as loose states hold exact ones, and so what is sure,
//! what is so and what is possible nest.
//!
//! What a user must believe is the definitions of `page_model`; everything else is proved against them. Nobody runs a definition, so
//! a slip in one would show nowhere. Each public function here has no parameters and an empty body, and its one clause is a law,
//! stated in `specs/`. It stands on the lemmas of `curve_laws`, on slots, and of `flash_laws`, on changes and flags; its own stand in
//! `proofs/`, over variables, for whoever proves more. The key law is `bad_windows_lie_between`: in a valid scene what is surely bad
//! is bad, and what is bad is possibly bad.
//!
//! It does not say that there are states and tints to speak of, nor that the definitions are those of the public standards: that is
//! for the reader of both.
#![tactic(auto)]

mod margin;
mod nest;
mod state;
mod tint;
mod window;

pub use margin::distances_are_close;
pub use nest::{bad_windows_nest, flashes_nest};
pub use state::{kinds_of_states_nest, loose_states_hold_exact};
pub use tint::{alike_pixels_have_one_tint, tints_hold_colours, tints_hold_tints};
pub use window::{bad_windows_lie_between, kinds_of_bad_windows_nest};
