//! Laws of horizons: when animations have settled, after how many frames they repeat, and why finitely many windows are enough.
//!
//! The definitions of `page_model` say what a page does, frame by frame. All else is proved against them, so an error in one of them
//! would be proved too. Each law here is the contract of a function that does nothing: its `ensures` names a statement of `specs/`,
//! and the proof stands in `proofs/`. Beside one stands a wrong definition, close to the right one, with an example that tells them
//! apart. Nobody calls this crate; its lemmas are for whoever judges a page by finitely many frames. The key clause is
//! `FewWindowsSuffice`: a page is safe for ever where no window that starts below its needed frames is bad, and by each kind of
//! enclosure no window at all is surely, or possibly, bad where none of those is.
//!
//! It does not say how the settled frame or the period is found.
#![tactic(auto)]

mod cycles;
mod forever;
mod horizons;

pub use cycles::{progress_repeats, wrong_cycle_breaks};
pub use forever::{bad_windows_repeat, few_windows_suffice, frames_have_earlier, states_repeat};
pub use horizons::{
    horizon_exists, horizon_is_unique, nothing_needs_one_frame, period_is_least_common_multiple,
    terms_are_least, turning_takes_twice,
};
