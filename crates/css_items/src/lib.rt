//! Lists of items, and the items that are one word.
//!
//! [`list_of`] reads a list of one item or more with commas between, for each kind of items ([`Item`]): one that is
//! wrong makes the list wrong, and else one past its limit makes it past its limit. That is its key clause, which
//! speaks of what each item spells. Items that are one word are read here: [`direction`], [`fill`], [`play`],
//! [`visibility`], and [`name_text`], the name of a keyframe set. `css_values` has these in declarations and in the
//! shorthand `animation`.
//!
//! Whether a name has a keyframe set, and how long two lists are beside each other, is not looked at.
#![tactic(auto)]

mod lists;
mod names;
mod tables;

pub use lists::{Item, list_of};
pub use names::{direction, fill, name_text, owned_name, play, visibility};
