//! The words that all of flash speaks: the types of pages, scenes and witnesses, and in `specs/` the
//! definitions that contracts cite. Every crate stands on it, and it stands on none.
//!
//! What a user must believe is the definitions: time, progress, keyframes, curves, slots and layers; colours,
//! light and red; flashes, bad windows and safety; loose tints and what is sure or possible of them; how many
//! frames are needed; and what makes a witness. They are written to be read beside the standards, each module
//! says from which, and none of them is a loop of the code.
//!
//! Its own calls are few: a [`List`] is a list in contracts, and a [`Setup`] is always within its ranges. That
//! a scene is valid is a definition here and a promise of those who make scenes.
#![tactic(auto)]

mod animation;
mod colour;
mod easing;
mod element;
mod keyframe;
mod list;
mod memory;
mod name;
mod place;
mod property;
mod rule;
mod scene;
mod setup;
mod witness;

pub use animation::{Anim, Count, Direction, Fill};
pub use colour::{Rgb, Rgba, Tint};
pub use easing::{Easing, Jump};
pub use element::{Element, PageText, Tag};
pub use keyframe::{Keyframe, KeyframeSet};
pub use list::List;
pub use memory::NoMemory;
pub use name::Name;
pub use place::Place;
pub use property::{Prop, Setting, Value};
pub use rule::{Compound, Decl, Longhand, Rule};
pub use scene::{Held, Layer, Scene};
pub use setup::{Setup, SetupFault};
pub use witness::{BadWindow, Kind, Part, Witness};
