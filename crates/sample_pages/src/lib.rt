//! Sample pages for the crates of tests: a page by its style text and its boxes, one of nine boxes, and their scenes.
//!
//! The tests of meaning, of judging and of whole runs stand on this crate, so that each of them writes a scene
//! as a page does and none builds its layers by hand. The key clause is that of [`scene_of`] and
//! [`scene_of_bytes`]: a scene that is given is valid, which is what the calls of the layers above ask for; the
//! tests ask the scene for the rest.
//!
//! It says nothing of what a page's scene looks like: that is `page_loader`'s to say.
#![tactic(auto)]

mod nine_boxes;
mod pages;

pub use nine_boxes::banner;
pub use pages::{lamp, page_of, scene_of, scene_of_bytes};
