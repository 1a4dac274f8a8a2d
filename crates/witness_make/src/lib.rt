//! The witness of a bad window: which pixels flash in it, and in which frames.
//!
//! When a sweep has found a window that is surely bad, whoever tells it asks [`make`] for the witness, whose text then goes out. A
//! part is made of each cell that is surely flagged and meets the rectangle: cut to the rectangle, in the order of cells, with the
//! first chain of its tints, which `cell_tints` gives. The key clause is `IsMade`: the witness is accepted, so it meets all conditions
//! under which the checker takes it, whatever the states of the layers are; its area is the number of surely flagged pixels in the
//! rectangle; and it is in form, so that its text reads as it.
//!
//! Where a bad window is, the sweep says; how a witness is written and read back, `flash_witness`. That the checker takes it is not
//! said by its code, but by the conditions that both stand on.
#![tactic(auto)]

mod clip;
mod making;
mod part;
mod turns;

pub use making::make;
