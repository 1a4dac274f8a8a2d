//! The top of flash: from words and bytes to one text and a status.
//!
//! [`run`] is the call that `main` makes, and its clause is the headline of the whole: there is an outcome
//! whose cause holds, and what was written is the text of that outcome. A pass means that no window of the
//! page is bad, from the first frame on for ever; a fail, that the text is a witness of the first bad window.
//! The tint of a pixel holds its exact colour in the frame, and is that colour where no easing is a curve.
//!
//! The way of a run: `flash_words` finds the command, `obeying` hands it on, `opening` reads and loads what its words name,
//! `checking` has the scene judged, `verifying` has a witness of it tested, `tinting` paints a pixel, `lighting` tells how light
//! a colour is, `showing` has a page judged that is made from a number, and `telling` makes the text and writes it. `Verdicts` in
//! `specs/` is the table of causes: it speaks of scenes, judgements and witnesses, and the crates below say what these are;
//! `Lighting` and `Demos` have those of the commands that name no file. A page is loaded or refused ([`every_page_is_loaded_or_refused`]), for one cause ([`one_refusal`]), the
//! answers exclude each other ([`one_answer`]), and what `check` tells of a page that fails is accepted by `verify`
//! ([`told_witness_is_accepted`]). A page that stands clear of the thresholds is passed or failed
//! ([`clear_pages_are_decided`], [`check_decides`]).
//!
//! Over a source that tells its bytes the clause speaks of those bytes; over files of the system it keeps its
//! causes, of whatever bytes were read, and says nothing of what a file holds. It doesn't say that memory is there, nor that
//! the witness is opened after the page is judged.
#![tactic(auto)]

mod checking;
mod demo_line;
mod laws;
mod light_line;
mod lighting;
mod loading;
mod obeying;
mod opening;
mod outcome;
mod refusal;
mod running;
mod showing;
mod status;
mod telling;
mod tint_line;
mod tinting;
mod verifying;

pub use flash_words::{Command, WordsFault, command};
pub use laws::{
    check_decides, clear_pages_are_decided, every_page_is_loaded_or_refused, one_answer,
    one_refusal, told_witness_is_accepted,
};
pub use outcome::{Light, Outcome};
pub use page_loader::{LoadFault, load};
pub use refusal::PageRefusal;
pub use running::{run, tell_no_memory};
pub use status::Status;
