//! Laws of witnesses: a witness that meets all nine conditions shows that its window is bad.
//!
//! What a witness has to meet stands in `page_model`; who makes one and who tests one stand on that alone, and not on each other.
//! Here is why the conditions are enough. Each public function has no parameters and an empty body, and its one clause is a law,
//! stated in `specs/`. The key law is `accepted_is_bad`: in a valid scene the window of a witness that is accepted is bad at the
//! stated position, with the exact states of the layers, whatever they are. `Acceptance` says in one line what accepted means.
//!
//! It does not say that a bad window has a witness: that is the maker's to say.
#![tactic(auto)]

mod witness;

pub use witness::{
    accepted_is_bad, one_condition_breaks, parts_fit_the_rectangle, witnesses_flash,
};
