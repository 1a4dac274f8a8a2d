//! Laws of pages whose colours all have full alpha: what they look like is what the former texts of slots, colours and tints say.
//!
//! Before colours had an alpha, a channel was a slot of its own, the body was the ground itself, and a box was blended by the alpha of
//! its opacity alone. These texts stand here and nowhere else, in modules `Former..` of `specs/`. Nobody calls this crate: each law is
//! the contract of a function with no parameters and an empty body. The key clause is `ColoursAreFormer`: in each run of exact states
//! of a valid scene whose alphas are full, each pixel has the colour that the former texts give it. So every answer on a page without
//! alpha is what it was.
//!
//! It does not say anything of a page with a colour that isn't opaque.
#![tactic(auto)]

mod paintings;
mod slots;
mod states;

pub use paintings::{colours_are_former, tints_are_former};
pub use slots::{channels_are_former, covers_are_full, loose_channels_are_former};
pub use states::{loose_states_are_former, states_are_former};
