//! A page made from a number: 64 boxes that blink and fade, each in a field of its own.
//!
//! A user who wants to see the judge at work on a large page, and whoever measures it, asks [`page_text`] for one: each number
//! of 32 bits has its page, and always the same one. The key clause is that the bytes are those of the definition in
//! `specs/GeneratedPage`: a fixed head, 64 boxes in eight rows whose sizes and rhythms are drawn from a sequence that the number
//! begins, and a fixed tail.
//!
//! What the page comes to when it is judged is not said here. No 341 by 256 rectangle holds enough of its boxes to be bad.
#![tactic(auto)]

mod generated;

pub use generated::page_text;
