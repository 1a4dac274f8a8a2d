//! Laws of curves: of their points and ends, of what they reach, and of the slots that follow them.
//!
//! What a user must believe is the definitions of `page_model`; everything else is proved against them. Nobody runs a definition, so
//! a slip in one would show nowhere. Each public function here has no parameters and an empty body, and its one clause is a law,
//! stated in `specs/`; beside one stands a wrong definition, of the kind that a slip makes, with a proof that it breaks the law. The
//! lemmas behind the laws stand in `proofs/`, over variables, for whoever proves more: `tint_laws` does. The key law is
//! `loose_slots_nest`: the exact value of a slot lies between the ends of each kind of enclosure, and the ends of the own kind
//! between those of the wide one.
//!
//! It does not say that a slot has a value, nor that the curve is that of the public standard.
#![tactic(auto)]

mod curve;
mod enclosure;
mod ends;
mod slot;

pub use curve::{
    bare_reach_breaks, curve_is_steady, reach_is_antitone, reach_is_kept_at_finer_scales,
};
pub use enclosure::{ends_are_near, intervals_nest, reaches_nest};
pub use ends::{counts_by_number, curve_ends};
pub use slot::{loose_channels_nest, loose_shown_nests, loose_slots_nest};
