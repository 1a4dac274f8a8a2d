//! From the bytes of a page to the scene that is judged.
//!
//! [`load`] joins the readers of the page, of its style text and of its style attributes with the cascade, and the top
//! of flash stands on it. Its key clause names bytes and scene alone: it is `Ok` exactly where the bytes spell a page, a
//! sheet and style attributes that make a scene, with that scene, which is valid; and each refusal comes exactly where
//! it is the first fault. The order is that of the work: the page, its sheet, the style attributes from the first element
//! on, and then the elements, again from the first on. A file comes to a scene or a fault
//! ([`every_file_is_loaded_or_not`]), and to one thing at most ([`one_loading`]).
//!
//! A file of more than 1,048,576 bytes is turned away by whoever calls. What the scene looks like isn't said here.
#![tactic(auto)]

mod faults;
mod laws;
mod load_fault;
mod loading;
mod styles;

pub use laws::{every_file_is_loaded_or_not, one_loading};
pub use load_fault::LoadFault;
pub use loading::load;
