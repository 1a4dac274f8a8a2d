// The files of the system, as a source.
ghost use Rattle.std.specs.Prelude.{◌≡◌, ◌≤◌, length, IfOk, is_ok, if◌then◌else◌};
ghost use Rattle.io_edge.specs.Faults.{HasCause, raised};

use crate::calls::raised;
use crate::fault::SourceFault;
use crate::source::Source;
use std::fs;
use std::io::Read;
use std::marker::Model;
use std::rt::Files;

/// The files that the system gives by their names. It tells no bytes, may be asked for every name,
/// and contracts see it as its count of faults.
#[derive(Drop)]
pub struct FileSource<R: Files> {
    rt: R,
    file: Option<R::File>,
    faults: u64,
}

impl<R: Files> Model for FileSource<R> {
    ghost use Rattle.std.specs.Prelude.{ℕ};

    ghost Value = { ℕ };

    ghost view = { λ s. s.faults };
}

impl<R: Files> FileSource<R> {
    /// A source of which nothing is open, over the runtime that `main` has.
    pub fn new(rt: R) -> FileSource<R>
        ensures { result ≡ 0 }
    {
        FileSource {
            rt,
            file: None,
            faults: 0,
        }
    }
}

impl<R: Files> Source for FileSource<R> {
    ghost use Rattle.std.specs.Prelude.{None, ⊤};

    ghost files = { λ _. None };

    ghost rest = { λ _. None };

    ghost faults = { λ s. s };

    ghost may_open = { λ _ _. ⊤ };

    /// A name that isn't there is a fault.
    fn open(&mut self, name: &str) -> Result<(), SourceFault>
        ensures count { self.new ≡ (if is_ok result then self.old else raised self.old) }
        ensures cause { HasCause self.old self.new result }
    {
        match fs::open(&self.rt, name) {
            Ok(file) => {
                self.file = Some(file);
                Ok(())
            }
            Err(_) => {
                self.file = None;
                self.faults = raised(self.faults);
                Err(SourceFault)
            }
        }
    }

    /// A read that was interrupted is a fault too.
    fn read(&mut self, buf: &mut [u8]) -> Result<usize, SourceFault>
        ensures bound { IfOk result (λ n. n ≤ length buf.new) }
        ensures count { self.new ≡ (if is_ok result then self.old else raised self.old) }
        ensures cause { HasCause self.old self.new result }
    {
        let Some(file) = &mut self.file else {
            return Ok(0);
        };
        match file.read(buf) {
            Ok(count) => Ok(count),
            Err(_) => {
                self.faults = raised(self.faults);
                Err(SourceFault)
            }
        }
    }
}
