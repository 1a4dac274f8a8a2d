//! From the tokens of a value to what they mean.
//!
//! [`declaration`] is what those who read style text need: the longhands that a declaration of one of the 21
//! properties sets. It is the exact value that the tokens spell, by the profile of CSS that
//! `specs/ValueGrammar.antt` gives, `BadValue` exactly where they spell none, and `OverLimit` exactly where they
//! spell one with a number past its limit and nothing wrong beside it; by [`every_value_is_judged`] one of the three
//! is so, whatever the tokens are. Each value that is given is in its limits. Single kinds of values ([`length`],
//! [`time`], [`colour`], [`easing`] and others) are read in the same way, and [`property`] is the property of a name.
//!
//! Numbers are exact: hundredths of a pixel or of a percent, thousandths, milliseconds. A number with more decimals
//! than its kind has is no value, so nothing is ever rounded.
//!
//! Which declaration wins, and whether a name has a keyframe set, is not looked at.
#![tactic(auto)]

mod declarations;
mod items;
mod laws;
mod shorthand;
mod tables;
pub mod types;

pub use css_colours::colour;
pub use css_easings::easing;
pub use css_quantities::{length, opacity, percentage, time, z_index};
pub use css_words::ValueFault;
pub use declarations::declaration;
pub use laws::every_value_is_judged;
pub use tables::property;
