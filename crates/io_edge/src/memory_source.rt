// Files in memory, as a source that fails where it is told to.
ghost use Rattle.std.specs.Prelude.{◌≡◌, ◌++◌, ◌∷◌, [], ◌<◌, ◌≤◌, not, min, is_ok, length};
ghost use Rattle.std.specs.Prelude.{None, Some, IfOk, OnOk, OnErr};
ghost use Rattle.std.specs.FinMap as map;
ghost use Rattle.io_edge.specs.Calls.{offered};
ghost use Rattle.io_edge.specs.Faults.{HasCause};
ghost use Rattle.io_edge.specs.Shelf.{filled};
ghost use Rattle.io_edge.specs.SourceState.{after_open, after_read, fails_next, opens};

use crate::calls::{is_named, raised};
use crate::fault::SourceFault;
use crate::shelf::{File, Place, newest, read_on};
use crate::source::Source;
use page_model::NoMemory;
use std::alloc::Global;
use std::marker::Model;

/// A source whose files lie in memory. It may be asked for every name, and fails at the calls that
/// are named for it, and where no file has the name.
#[derive(Drop)]
pub struct MemorySource {
    alloc: Global,
    // The oldest first. Bytes that were replaced stay, since they may be what is being read.
    files: Vec<File>,
    reading: Option<Place>,
    most: Option<u32>,
    failing: Vec<u32>,
    calls: u64,
    faults: u64,
}

impl Model for MemorySource {
    ghost use Rattle.io_edge.specs.Calls.{IsDole};
    ghost use Rattle.io_edge.specs.Shelf.{files_of, rest_of, IsPlaceIn};
    ghost use Rattle.io_edge.specs.SourceState.{SourceState, source_code};

    ghost Value = { SourceState };

    ghost coded = { source_code };

    ghost view = { λ s. record {
      files = files_of s.files.items;
      rest = rest_of s.files.items s.reading;
      most = s.most;
      failing = s.failing.items;
      calls = s.calls;
      faults = s.faults;
    } };

    ghost invariant = { λ s. IsPlaceIn s.files.items s.reading × IsDole s.most };
}

impl MemorySource {
    /// A source with no file, of which nothing is open. It keeps the allocator for later files.
    pub fn new(alloc: Global) -> MemorySource
        ensures { result ≡
            record { files = map.empty; rest = []; most = None; failing = []; calls = 0; faults = 0 } }
    {
        MemorySource {
            alloc,
            files: Vec::new(alloc),
            reading: None,
            most: None,
            failing: Vec::new(alloc),
            calls: 0,
            faults: 0,
        }
    }

    /// Gives a name these bytes, in place of those that it had. What is being read stays as it is.
    #[tactic(auto, using(crate::proofs::Newest::one_more_file))]
    pub fn add(&mut self, name: &str, bytes: &[u8]) -> Result<(), NoMemory>
        ensures ok { OnOk result (self.new ≡
            record self.old { files = map.insert self.old.files name.now bytes.now }) }
        ensures err { OnErr result (self.new ≡ self.old) }
    {
        self.files.push(File::new(self.alloc, name, bytes)?)?;
        Ok(())
    }

    /// Names a call of `open` or `read` that is to fail. They are numbered together, from 1.
    pub fn fail_at(&mut self, call: u32) -> Result<(), NoMemory>
        ensures ok { OnOk result (self.new ≡
            record self.old { failing = self.old.failing ++ call ∷ [] }) }
        ensures err { OnErr result (self.new ≡ self.old) }
    {
        self.failing.push(call)?;
        Ok(())
    }

    /// Doles out at most so many bytes to each later read.
    pub fn dole(&mut self, most: u32)
        requires { 1 ≤ most }
        ensures { self.new ≡ record self.old { most = Some most } }
    {
        self.most = Some(most);
    }
}

impl Source for MemorySource {
    ghost use Rattle.std.specs.Prelude.{⊤};

    ghost files = { λ s. Some s.files };

    ghost rest = { λ s. Some s.rest };

    ghost faults = { λ s. s.faults };

    ghost may_open = { λ _ _. ⊤ };

    /// Fails exactly where the call is named to fail, or no file has the name.
    fn open(&mut self, name: &str) -> Result<(), SourceFault>
        ensures answer { is_ok result ≡ opens self.old name.now }
        ensures state { self.new ≡ after_open self.old name.now }
        ensures cause { HasCause self.old.faults self.new.faults result }
    {
        self.calls = raised(self.calls);
        if !is_named(self.failing.as_slice(), self.calls) {
            if let Some(file) = newest(self.files.as_slice(), name.as_bytes()) {
                self.reading = Some(Place { file, at: 0 });
                return Ok(());
            }
        }
        self.faults = raised(self.faults);
        Err(SourceFault)
    }

    /// Fails exactly where the call is named to fail, and else gives as many bytes as the buffer and the
    /// rest allow, but no more than are doled out.
    fn read(&mut self, buf: &mut [u8]) -> Result<usize, SourceFault>
        ensures answer { is_ok result ≡ not (fails_next self.old) }
        ensures count { IfOk result (λ n.
            n ≡ min (length buf.old) (length (offered self.old.most self.old.rest))) }
        ensures end { IfOk result (λ n. n ≡ 0 → 0 < length buf.old → self.new.rest ≡ []) }
        ensures buffer { OnOk result (buf.new ≡ filled buf.old (offered self.old.most self.old.rest)) }
        ensures kept { OnErr result (buf.new ≡ buf.old) }
        ensures state { self.new ≡ after_read self.old (length buf.old) }
        ensures cause { HasCause self.old.faults self.new.faults result }
    {
        self.calls = raised(self.calls);
        if is_named(self.failing.as_slice(), self.calls) {
            self.faults = raised(self.faults);
            return Err(SourceFault);
        }
        let Some(place) = &mut self.reading else {
            return Ok(0);
        };
        Ok(read_on(self.files.as_slice(), place, self.most, buf))
    }
}
