//! The checker of witnesses: whether a stated bad window is one.
//!
//! Whoever is handed a witness asks [`accepts`]. It tests nine conditions one after another, each over all parts before the next
//! one, and trusts nothing that is stated: it computes the states of the page's layers in each stated frame, and paints the pixels. Where
//! no edge of a box cuts a part the first pixel of the part speaks for all of them, else each is painted; and parts that stand row by row
//! are seen to be apart in one pass, others pair by pair. It stands on nothing of the judge, neither its cells nor its sweep, and takes
//! no memory. The key clauses: Ok comes exactly where all nine conditions hold, and then the window is bad at the stated position; a
//! fault is the first condition that fails, at the first place where it does, and all faults that can be told of a witness are of one
//! condition ([`one_condition`]).
//!
//! How a witness is written and read is `flash_witness`'s to say.
#![tactic(auto)]

mod accepting;
mod area;
mod change;
mod fault;
mod frames;
mod kept;
mod laws;
mod overlap;
mod place;
mod tints;

pub use accepting::accepts;
pub use fault::WitnessFault;
pub use laws::one_condition;
