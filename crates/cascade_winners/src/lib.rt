//! The winning declarations of an element: CSS Cascading and Inheritance, for a page's own style sheet and its style
//! attributes.
//!
//! [`winners_of`] is the one call, made by those who resolve a page. It goes over the rules once and keeps, for each
//! longhand property, the best declaration so far; its clause says what the standard says, that the winning one is the
//! greatest of all that match, by importance, the style attribute, specificity and place. It takes no memory, since the
//! winners refer to the rules that they come from.
//!
//! Where no two declarations of a property have one place, the winners are the only ones, and each value that wins is
//! in its limits: the layer above needs both, and hence they are clauses here. What the values mean isn't said.
#![tactic(auto)]

mod matching;
mod weights;
mod winners;

pub use winners::{Candidate, Winners, winners_of};
