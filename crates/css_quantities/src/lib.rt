//! Numbers with their units: lengths, times, percentages, and numbers without unit.
//!
//! Each call reads the words of one value: [`length`] in hundredths of a pixel, [`time`] and [`duration`] in
//! milliseconds, [`percentage`] in hundredths of a percent, [`opacity`] in thousandths, [`z_index`], and [`count`], how
//! often an animation runs. Its clause `exact` says that it is what the words spell, `BadValue` exactly where they spell
//! none and `OverLimit` exactly where they spell one past its limit; its other clauses that what is given is in its
//! limits. `css_values` has these values in declarations, and `css_parts` percentages in keyframes.
//!
//! A number with more decimals than its kind has is no value. Lists are not read here.
#![tactic(auto)]

mod quantity;

pub use quantity::{count, duration, is_nothing, length, opacity, percentage, time, z_index};
