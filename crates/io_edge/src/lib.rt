//! Where flash meets the outside: files come from a [`Source`], by name, and a text goes to a
//! [`Sink`]. Everything that opens, reads or writes stands on these two traits, so that what is
//! promised of it holds over files in memory, over those of the system, and over ends that fail.
//!
//! What an end holds is told by ghost members: the files of a source and the rest of the opened one,
//! the bytes that a sink took, each where it is known, and a count of faults. The key clause is that
//! of [`read_all`]: an `Ok` is the whole file, which isn't longer than the limit, `TooLong` comes only
//! where it is longer, and a fault only where the source's own count rose in the call, so that no
//! caller can give up and blame the outside. [`write_all`] says the same of a text.
//!
//! Nothing is said of what a file of the system holds, or where standard output leads: [`FileSource`]
//! and [`StdoutSink`] tell no bytes, and their few lines are trusted for that. Nor is it said that
//! memory is there.
#![tactic(auto)]

mod calls;
mod fault;
mod file_source;
mod memory_sink;
mod memory_source;
mod reading;
mod shelf;
mod sink;
mod source;
mod stdout_sink;
mod sure_sink;
mod sure_source;
mod writing;

pub use fault::{SinkFault, SourceFault};
pub use file_source::FileSource;
pub use memory_sink::MemorySink;
pub use memory_source::MemorySource;
pub use reading::{ReadAllFault, read_all};
pub use sink::Sink;
pub use source::Source;
pub use stdout_sink::StdoutSink;
pub use sure_sink::SureSink;
pub use sure_source::SureSource;
pub use writing::write_all;
