//! Laws of the separate judgement: pages beyond the common bound whose regions repeat by themselves.
//!
//! A page may need more frames than can be looked at, though each part of it needs few: two blinking boxes that are
//! apart, of periods that have no small common multiple. Then each cell is looked at in the frames that the layers
//! which meet it need. Why that is enough is said here: a pixel shows what the layers that meet its cell show, the
//! others leave the backdrop in every frame, and those repeat after the cell's own frames, so each window of the pixel
//! is one that was looked at. Each law is the contract of a function that does nothing; its `ensures` names a
//! statement of `specs/`, and the proof stands in `proofs/`. Nobody calls this crate; its lemmas are for whoever
//! judges a page region by region. The key clause is `PartedPagesAreSafe`: where the separate judgement holds, no
//! window is bad, from the first frame on for ever.
//!
//! It does not say how regions are found or looked at, nor anything of a page where the separate judgement fails: that
//! may be safe, too.
#![tactic(auto)]

mod parted;

pub use parted::{one_parting, parted_pages_are_safe};
