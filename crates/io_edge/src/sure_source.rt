// Files in memory, as a source that never fails.
ghost use Rattle.std.specs.Prelude.{◌≡◌, [], min, length, Ok, OnOk, OnErr};
ghost use Rattle.std.specs.FinMap as map;
ghost use Rattle.io_edge.specs.Faults.{HasCause};
ghost use Rattle.io_edge.specs.Files.{bytes_of};
ghost use Rattle.io_edge.specs.Shelf.{filled};

use crate::fault::SourceFault;
use crate::shelf::{File, Place, newest, read_on};
use crate::source::Source;
use page_model::NoMemory;
use std::alloc::Global;
use std::marker::Model;

/// A source whose files lie in memory, and which never fails: its count of faults is always 0. It may
/// be asked for every name, and a name that no file has opens an empty file.
#[derive(Drop)]
pub struct SureSource {
    alloc: Global,
    // The oldest first. Bytes that were replaced stay, since they may be what is being read.
    files: Vec<File>,
    reading: Option<Place>,
}

impl Model for SureSource {
    ghost use Rattle.io_edge.specs.Shelf.{files_of, rest_of, IsPlaceIn};
    ghost use Rattle.io_edge.specs.SureState.{SureState, sure_code};

    ghost Value = { SureState };

    ghost coded = { sure_code };

    ghost view = { λ s. record {
      files = files_of s.files.items;
      rest = rest_of s.files.items s.reading;
    } };

    ghost invariant = { λ s. IsPlaceIn s.files.items s.reading };
}

impl SureSource {
    /// A source with no file, of which nothing is open. It keeps the allocator for later files.
    pub fn new(alloc: Global) -> SureSource
        ensures { result ≡ record { files = map.empty; rest = [] } }
    {
        SureSource {
            alloc,
            files: Vec::new(alloc),
            reading: None,
        }
    }

    /// Gives a name these bytes, in place of those that it had. What is being read stays as it is.
    #[tactic(auto, using(crate::proofs::Newest::one_more_file))]
    pub fn add(&mut self, name: &str, bytes: &[u8]) -> Result<(), NoMemory>
        ensures ok { OnOk result (self.new ≡
            record self.old { files = map.insert self.old.files name.now bytes.now }) }
        ensures err { OnErr result (self.new ≡ self.old) }
    {
        self.files.push(File::new(self.alloc, name, bytes)?)?;
        Ok(())
    }
}

impl Source for SureSource {
    ghost use Rattle.std.specs.Prelude.{Some, drop, is_ok, true, ⊤};

    ghost files = { λ s. Some s.files };

    ghost rest = { λ s. Some s.rest };

    ghost faults = { λ _. 0 };

    ghost may_open = { λ _ _. ⊤ };

    /// Never fails.
    fn open(&mut self, name: &str) -> Result<(), SourceFault>
        ensures answer { is_ok result ≡ true }
        ensures state { self.new ≡ record self.old { rest = bytes_of self.old.files name.now } }
        ensures cause { HasCause 0 0 result }
    {
        self.reading = match newest(self.files.as_slice(), name.as_bytes()) {
            Some(file) => Some(Place { file, at: 0 }),
            None => None,
        };
        Ok(())
    }

    /// Never fails, and gives as many bytes as the buffer and the rest allow.
    fn read(&mut self, buf: &mut [u8]) -> Result<usize, SourceFault>
        ensures answer { result ≡ Ok (min (length buf.old) (length self.old.rest)) }
        ensures buffer { buf.new ≡ filled buf.old self.old.rest }
        ensures state { self.new ≡ record self.old { rest = drop (length buf.old) self.old.rest } }
        ensures cause { HasCause 0 0 result }
    {
        let Some(place) = &mut self.reading else {
            return Ok(0);
        };
        Ok(read_on(self.files.as_slice(), place, None, buf))
    }
}
