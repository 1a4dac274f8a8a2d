//! Laws of loose states and of the wide kind of enclosure: what they hold, what is painted by them, and what that says of windows.
//!
//! Nobody calls this crate. Whoever wants to believe the definitions of `page_model` reads it beside them: each law is the contract
//! of a function with no parameters and an empty body, whose clause names the statement in `specs/`, and the comment on the function
//! names a wrong definition that the law refuses. It stands on the lemmas of `state_laws`. The key clause is `NeverPossiblyBadIsSafe`:
//! a valid scene of which no window is possibly bad by the wide kind is safe. It needs no excluded middle, since of each painting it
//! is decided whether a window is bad.
//!
//! It does not say how the own kind lies between the exact one and the wide one: `tint_laws` does.
#![tactic(auto)]

mod decided;
mod kinds;
mod loose;
mod painting;
mod tints;

pub use decided::bad_is_decided;
pub use kinds::{never_possibly_bad_is_safe, surely_bad_is_bad};
pub use loose::{exact_kind_is_exact, loose_run_exists, loose_state_is_unique, wide_holds_exact};
pub use painting::{blend_ends, blend_grows, pixel_is_colour};
pub use tints::{tint_holds_colour, wide_tint_holds_colour};
