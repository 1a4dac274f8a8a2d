// The call that `main` makes.
ghost use Rattle.std.specs.Prelude.{◌≡◌, map, string_bytes};
ghost use Rattle.flash_top.specs.Outcomes.{IsOutcome, MayOpenFiles};
ghost use Rattle.flash_top.specs.Telling.{Tells};
ghost use Rattle.flash_top.specs.Texts.{CanBeTold, HasOwnText, IsToldFor, status_of, text_of};
ghost use Rattle.flash_top.specs.declared.outcome.Outcome.{Outcome as Found};
ghost use Rattle.flash_top.specs.declared.outcome.Outcome.TheVariants.{NoMemory as MemoryRefused};

use crate::obeying::outcome_of;
use crate::outcome::Outcome;
use crate::status::Status;
use crate::telling::{fixed_text, own_text, status, tell};
use io_edge::{Sink, Source};
use page_model::NoMemory;
use std::alloc::Global;

/// Does what the words ask for: reads the files that they name from the source, judges the page or tests the
/// witness, writes one text to the sink, and tells how it went.
///
/// The clause is the whole promise of the program. There is an outcome whose cause holds, and what was
/// written is its text and the status its status; or the sink counted a fault, and what was written is
/// the beginning of that text. No file is opened but those that the words name.
pub fn run<S: Source, K: Sink>(
    alloc: Global,
    words: &[String],
    source: &mut S,
    sink: &mut K,
) -> Status
    requires { MayOpenFiles (map string_bytes words.now) (S.may_open source.old) }
    ensures { (outcome : Found)
        × IsOutcome (map string_bytes words.now) (S.files source.old) (S.faults source.old) (S.faults source.new) outcome
        × Tells (record {
          old = K.contents sink.old;
          new = K.contents sink.new;
          faults_before = K.faults sink.old;
          faults_after = K.faults sink.new;
        })
        (text_of outcome) (status_of outcome) result }
{
    let outcome = outcome_of(alloc, words, source);
    match fixed_text(&outcome) {
        Some(text) => tell(sink, text, status(&outcome)),
        None => tell_own(alloc, &outcome, sink),
    }
}

/// Writes the text of an outcome that has something of its own to tell; where memory is refused for it,
/// that is what comes out.
fn tell_own<K: Sink>(alloc: Global, outcome: &Outcome, sink: &mut K) -> Status
    requires own { HasOwnText outcome.now }
    requires told { CanBeTold outcome.now }
    ensures { (told : Found)
        × IsToldFor outcome.now told
        × Tells (record {
          old = K.contents sink.old;
          new = K.contents sink.new;
          faults_before = K.faults sink.old;
          faults_after = K.faults sink.new;
        })
        (text_of told) (status_of told) result }
{
    match own_text(alloc, outcome) {
        Ok(text) => tell(sink, text.as_slice(), status(outcome)),
        Err(NoMemory) => tell_no_memory(sink),
    }
}

/// Writes that memory was refused, which takes none. So a caller tells it whom memory was refused before there was anything to
/// run, such as for the words.
pub fn tell_no_memory<K: Sink>(sink: &mut K) -> Status
    ensures { Tells (record {
      old = K.contents sink.old;
      new = K.contents sink.new;
      faults_before = K.faults sink.old;
      faults_after = K.faults sink.new;
    })
        (text_of MemoryRefused) (status_of MemoryRefused) result }
{
    tell(sink, b"no memory\n".as_slice(), Status::NoMemory)
}
