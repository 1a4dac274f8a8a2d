//! Parts of a viewport that are painted evenly: where one pixel speaks for all.
//!
//! The checker of witnesses stands on it, so that it needn't paint each pixel of a part. [`are_painted_evenly`] looks
//! at the states of the page's layers in a frame: where each box surely isn't shown, surely misses the part, or has no
//! edge that may cut it, it says yes. The key clause: each box is then painted as surely at all pixels of the part as
//! at the first one. So all pixels have the tint of the first, which is a lemma that those above cite.
//!
//! It may say no where a part is painted evenly all the same: then each pixel is painted, which others do.
#![tactic(auto)]

mod even;

pub use even::are_painted_evenly;
