//! What the shorthand `animation` sets.
//!
//! A [`Shorthand`] is an item of it, with initial values where it has no word. [`columns`] makes of all its items the
//! eight longhands that it sets, each with its part of each item, in the order of the variants of `Longhand`: its clause
//! says that they are these. `css_values` reads the items, and hands them here.
//!
//! How the words of an item are read is not said here.
#![tactic(auto)]

mod item;
mod longhands;

pub use item::Shorthand;
pub use longhands::columns;
