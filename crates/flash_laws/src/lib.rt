//! Laws of light and red, of changes between colours and between tints, of chains, flags and counted marks.
//!
//! What a user must believe is the definitions of `page_model`; everything else is proved against them. Nobody runs a definition, so
//! a slip in one would show nowhere. Each public function here has no parameters and an empty body, and its one clause is a law,
//! stated in `specs/`. Beside some laws stands a wrong definition, of the kind that a slip makes, with a proof that the law fails of
//! it: so the law does refuse that slip. The lemmas behind the laws stand in `proofs/`, over variables, for whoever proves more:
//! `tint_laws` does. The key law is `flags_carry_over`: where the changes of one painting are changes of another, flags, bad windows
//! and safety follow.
//!
//! It does not say which colours a page has, nor that the definitions are those of the public standards.
#![tactic(auto)]

mod chain;
mod flags;
mod light;
mod marks;
mod sure;

pub use chain::{Changing, chains_carry_over};
pub use flags::{
    badness_grows, flags_carry_over, flashes_by_halves_break, flashes_need_nine_frames,
};
pub use light::{
    black_is_not_red, far_one_way_breaks, mostly_red_breaks, red_reads_backwards,
    rise_and_fall_exclude, rise_anywhere_breaks, white_is_brightest,
};
pub use marks::{area_twice_breaks, marks_count};
pub use sure::{changes_are_possible, possible_is_not_sure, sure_changes_are_changes};
