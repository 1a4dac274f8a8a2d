//! Colours.
//!
//! [`colour`] reads the words of a colour: `#` and hexadecimal digits, a name, or `rgb(` or `rgba(` with three whole
//! numbers, an alpha or none, and `)`. Its clause `exact` says that it is the colour that the words spell, and `BadValue`
//! exactly where they spell none; `valid`, that its channels go from 0 to 255 and its alpha from 0 to 255,000.
//! `css_values` has colours in declarations.
//!
//! An alpha is in parts of 255,000, so that one of two hexadecimal digits and one of three decimals are whole. A number
//! above 255 is held to it, and an alpha to 0 and 1; no colour is past a limit. How light a colour is, is not said here.
#![tactic(auto)]

mod colours;
mod tables;

pub use colours::colour;
