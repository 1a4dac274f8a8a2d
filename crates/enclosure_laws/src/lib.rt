//! Laws of enclosures: why a page may be left undecided, and which pages never are.
//!
//! Nobody calls this crate. Whoever wants to believe the definitions of `page_model` reads it beside them: each law
//! is the contract of a function with no parameters and an empty body, whose clause names the statement in `specs/`,
//! and the comment on the function names a wrong definition that the law refuses. It stands on the lemmas of
//! `tint_laws`, by which the kinds of bad windows nest for states that are handed in, and of `wide_laws` and
//! `state_laws`, by which it is impossible that there are no such states. The key clauses are `OpenIsOpenWidely`: a
//! window that the own kind leaves open, so that the judge doesn't decide it, is left open by the wide kind, whose
//! margins are stated; and `ExactPagesAreDecided`: without curves and without saturated colours none is left open.
//!
//! It does not say that a page with a curve or a saturated colour is left open.
#![tactic(auto)]

mod cause;
mod exact;

pub use cause::{bad_by_tints_is_decided, bad_windows_are_ordered, open_is_open_widely};
pub use exact::{exact_pages_are_decided, tints_are_single};
