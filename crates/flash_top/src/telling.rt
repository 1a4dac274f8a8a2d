// The text and the status of an outcome, and how they are told.
ghost use Rattle.std.specs.Prelude.{◌≡◌, ◌++◌, ◌∷◌, [], IfOk, MatchOption, string_bytes};
ghost use Rattle.flash_top.specs.Telling.{Tells};
ghost use Rattle.flash_top.specs.declared.outcome.Outcome.TheVariants.{Accepted, Enclosed, Pass, TooMuchWork, Unaccepted};
ghost use Rattle.flash_top.specs.Texts.{CanBeTold, HasOwnLine, HasOwnText, line_of, refusal_line, status_of, text_of};

use crate::demo_line::demo_lines;
use crate::light_line::light_line;
use crate::outcome::Outcome;
use crate::refusal::PageRefusal;
use crate::status::Status;
use crate::tint_line::tint_line;
use flash_witness::{WitnessFault, to_text};
use io_edge::{Sink, write_all};
use page_model::NoMemory;
use std::alloc::Global;

/// The status of an outcome.
pub(crate) fn status(outcome: &Outcome) -> Status
    ensures { result ≡ status_of outcome.now }
{
    match outcome {
        Outcome::WordsRefused => Status::Words,
        Outcome::ReadFault => Status::ReadFault,
        Outcome::Refused(_) => Status::Page,
        Outcome::Pass { .. } | Outcome::Accepted { .. } | Outcome::Painted(_) => Status::Pass,
        Outcome::Lit(_) | Outcome::Shown { .. } => Status::Pass,
        Outcome::Fail(_) | Outcome::NoWitness | Outcome::Unaccepted(_) => Status::Bad,
        Outcome::TooManyFrames | Outcome::TooMuchWork { .. } | Outcome::Enclosed { .. } => {
            Status::Undecided
        }
        Outcome::NoMemory => Status::NoMemory,
    }
}

/// The text of a refusal whose words are always the same.
fn fixed_line(refusal: &PageRefusal) -> Option<&'static [u8]>
    ensures { MatchOption result (HasOwnLine refusal.now) (λ text. text.now ≡ refusal_line refusal.now ++ 10 ∷ []) }
{
    match refusal {
        PageRefusal::TooLong => Some(b"page: too long\n".as_slice()),
        PageRefusal::TooManyBoxes => Some(b"page: more than 64 boxes\n".as_slice()),
        PageRefusal::BodyProperty => {
            Some(b"page: body has a property that it may not have\n".as_slice())
        }
        PageRefusal::BadText { .. }
        | PageRefusal::BadSheet { .. }
        | PageRefusal::UnknownProperty { .. }
        | PageRefusal::BadValue { .. }
        | PageRefusal::BadKeyframes { .. }
        | PageRefusal::OverLimit { .. }
        | PageRefusal::NotPlaced { .. }
        | PageRefusal::TooManyAnimations { .. } => None,
    }
}

/// The text of a refusal that has a place or an element to tell, without its end.
fn own_line(alloc: Global, refusal: &PageRefusal) -> Result<String, NoMemory>
    requires { HasOwnLine refusal.now }
    ensures { IfOk result (λ text. string_bytes text ≡ refusal_line refusal.now) }
{
    Ok(match refusal {
        PageRefusal::BadText { at } => format!(in alloc; "page: bad text at {at}")?,
        PageRefusal::BadSheet { at } => format!(in alloc; "page: bad sheet at {at}")?,
        PageRefusal::UnknownProperty { at } => format!(in alloc; "page: unknown property at {at}")?,
        PageRefusal::BadValue { at } => format!(in alloc; "page: bad value at {at}")?,
        PageRefusal::BadKeyframes { at } => format!(in alloc; "page: bad keyframes at {at}")?,
        PageRefusal::OverLimit { at } => format!(in alloc; "page: over a limit at {at}")?,
        PageRefusal::NotPlaced { index } => {
            format!(in alloc; "page: element {index} is not placed")?
        }
        PageRefusal::TooManyAnimations { index } => {
            format!(in alloc; "page: more than 8 animations on element {index}")?
        }
        _ => unreachable!(),
    })
}

/// The line of a page that passes, which tells where each region was judged by itself.
pub(crate) fn pass_line(alloc: Global, frames: u32, apart: bool) -> Result<String, NoMemory>
    ensures { IfOk result (λ text. string_bytes text ≡ line_of (Pass frames apart)) }
{
    if apart {
        return Ok(format!(in alloc; "pass: frames {frames}, regions apart")?);
    }
    Ok(format!(in alloc; "pass: frames {frames}")?)
}

/// The line of too many cells in the frames that would have to be looked at.
pub(crate) fn work_line(alloc: Global, cells: u32, frames: u32) -> Result<String, NoMemory>
    ensures { IfOk result (λ text. string_bytes text ≡ line_of (TooMuchWork cells frames)) }
{
    Ok(format!(in alloc; "undecided: {cells} cells in {frames} frames")?)
}

/// The line of a window that is possibly bad.
pub(crate) fn window_line(alloc: Global, start: u32, x: i32, y: i32) -> Result<String, NoMemory>
    ensures { IfOk result (λ text. string_bytes text ≡ line_of (Enclosed start x y)) }
{
    Ok(format!(in alloc; "undecided: enclosure at start {start}, rectangle {x} {y}")?)
}

/// The line of a witness that isn't accepted: the number of its first condition that fails.
fn fault_line(alloc: Global, fault: &WitnessFault) -> Result<String, NoMemory>
    ensures { IfOk result (λ text. string_bytes text ≡ line_of (Unaccepted fault.now)) }
{
    let condition = fault.condition();
    Ok(format!(in alloc; "refused: condition {condition}")?)
}

/// The line of a witness that is accepted.
fn accepted_line(alloc: Global, start: u32, area: u32) -> Result<String, NoMemory>
    ensures { IfOk result (λ text. string_bytes text ≡ line_of (Accepted start area)) }
{
    Ok(format!(in alloc; "accepted: start {start}, area {area}")?)
}

/// The text of an outcome whose words are always the same, which takes no memory.
pub(crate) fn fixed_text(outcome: &Outcome) -> Option<&'static [u8]>
    ensures { MatchOption result (HasOwnText outcome.now) (λ text. text.now ≡ text_of outcome.now) }
{
    match outcome {
        Outcome::WordsRefused => Some(b"words: not understood\n".as_slice()),
        Outcome::ReadFault => Some(b"cannot read\n".as_slice()),
        Outcome::Refused(refusal) => fixed_line(refusal),
        Outcome::TooManyFrames => Some(b"undecided: more than 100000 frames\n".as_slice()),
        Outcome::NoWitness => Some(b"refused: not a witness\n".as_slice()),
        Outcome::Pass { .. }
        | Outcome::Fail(_)
        | Outcome::TooMuchWork { .. }
        | Outcome::Enclosed { .. }
        | Outcome::Unaccepted(_)
        | Outcome::Accepted { .. }
        | Outcome::Painted(_)
        | Outcome::Lit(_)
        | Outcome::Shown { .. } => None,
        Outcome::NoMemory => Some(b"no memory\n".as_slice()),
    }
}

/// The text of an outcome that has numbers, a tint or a witness to tell.
pub(crate) fn own_text(alloc: Global, outcome: &Outcome) -> Result<Vec<u8>, NoMemory>
    requires own { HasOwnText outcome.now }
    requires told { CanBeTold outcome.now }
    ensures { IfOk result (λ text. text.items ≡ text_of outcome.now) }
{
    let mut text = match outcome {
        Outcome::Refused(refusal) => own_line(alloc, refusal)?.into_bytes(),
        Outcome::Pass { frames, apart } => pass_line(alloc, *frames, *apart)?.into_bytes(),
        Outcome::Fail(witness) => to_text(alloc, witness)?,
        Outcome::TooMuchWork { cells, frames } => work_line(alloc, *cells, *frames)?.into_bytes(),
        Outcome::Enclosed { start, x, y } => window_line(alloc, *start, *x, *y)?.into_bytes(),
        Outcome::Unaccepted(fault) => fault_line(alloc, fault)?.into_bytes(),
        Outcome::Accepted { start, area } => accepted_line(alloc, *start, *area)?.into_bytes(),
        Outcome::Painted(tint) => tint_line(alloc, tint)?.into_bytes(),
        Outcome::Lit(light) => light_line(alloc, light)?.into_bytes(),
        Outcome::Shown { number, judgement } => {
            demo_lines(alloc, *number, judgement)?.into_bytes()
        }
        _ => unreachable!(),
    };
    text.push(b'\n')?;
    Ok(text)
}

/// Writes the text, and tells its own status, or a fault of the sink.
pub(crate) fn tell<K: Sink>(sink: &mut K, text: &[u8], own: Status) -> Status
    ensures { Tells (record {
      old = K.contents sink.old;
      new = K.contents sink.new;
      faults_before = K.faults sink.old;
      faults_after = K.faults sink.new;
    }) text.now own result }
{
    match write_all(sink, text) {
        Ok(()) => own,
        Err(_) => Status::WriteFault,
    }
}
