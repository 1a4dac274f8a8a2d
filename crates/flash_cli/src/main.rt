//! The program `flash`: what the system gives is handed to `flash_top::run`, and its status ends the
//! program. Everything that is promised stands on that call.
//!
//! The words are the arguments after the program's name; where they can't be had as text, no words are
//! handed on, which are not understood. Files come from the system by name, and the text goes to
//! standard output, a piece at a time; nothing is written to standard error. Where memory is refused for the words, that is told
//! as any other want of memory.
#![tactic(auto)]

use flash_top::{Status, run, tell_no_memory};
use io_edge::{FileSource, StdoutSink};
use page_model::NoMemory;
use std::env::{self, Env};
use std::io;
use std::process::ExitCode;

fn main(rt: HostRuntime) -> ExitCode {
    let mut sink = StdoutSink::new(&rt);
    let Ok(words) = words(&rt) else {
        return exit_code(tell_no_memory(&mut sink));
    };
    let mut source = FileSource::new(&rt);
    exit_code(run(rt.alloc(), words.as_slice(), &mut source, &mut sink))
}

/// The arguments after the program's name, or none where they are no text.
fn words(rt: &(impl Env + AllocGlobal)) -> Result<Vec<String>, NoMemory> {
    match env::args(rt) {
        Ok(arguments) => Ok(arguments.skip(1).collect(rt.alloc())?),
        Err(fault) if fault.kind() == io::ErrorKind::OutOfMemory => Err(NoMemory),
        Err(_) => Ok(Vec::new(rt.alloc())),
    }
}

/// The exit status, by its number.
fn exit_code(status: Status) -> ExitCode {
    ExitCode::from(status as u8)
}
