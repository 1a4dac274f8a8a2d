//! The judgement of a scene: pass, fail with a witness, or why it stays undecided.
//!
//! The top asks [`judge`] once a page is loaded. It opens a sweep, runs it, and where a window is bad has its witness made. The key
//! clause is `IsJudgement`: a pass means that no window of the scene is bad, from the first frame on for ever; a fail, that the witness
//! tells the first window that is surely bad, meets all nine conditions, and that the window is bad; each other answer comes by its own
//! cause. The answers exclude each other, by each window wherever it starts: [`one_judgement`] is the law. And a scene that stands clear
//! of the thresholds is decided within the counted bounds: [`clear_scenes_are_decided`].
//!
//! It speaks of scenes, verdicts and witnesses alone: how a page is read, and how an answer is told, is the top's to say.
#![tactic(auto)]

mod judging;
mod types;

pub use judging::{clear_scenes_are_decided, judge, one_judgement};
pub use types::Judgement;
