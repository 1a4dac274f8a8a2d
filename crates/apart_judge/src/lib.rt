//! The judgement of a page that needs too many frames as a whole: by its regions, each in the frames that it needs
//! by itself.
//!
//! Two boxes that each repeat soon may together repeat only after hours. A pixel shows only the boxes that meet its
//! region, so [`judge_apart`] looks at each region in the windows that the layers which meet it need, and asks
//! whether the regions that are possibly flagged in any of these fill more than a quarter of the rectangle,
//! wherever it lies. `sweep` stands on it where it can't look at all frames of the page. The key clause is
//! `IsJudging`: an answer is the greatest number of frames that a region needs, by the definition of the separate
//! judgement, and there is none exactly where that doesn't hold.
//!
//! It doesn't say that such a page is safe for ever: `apart_laws` does. Where no answer comes nothing is known of
//! the page: the regions may flash in turn and never together.
#![tactic(auto)]

mod judging;
mod marking;

pub use judging::judge_apart;
