// Where files are read from.
ghost use Rattle.std.specs.Prelude.{◌≡◌, ◌≤◌, ℕ, List, Option, length, take, IfOk, OnOk};
ghost use Rattle.io_edge.specs.Faults.{HasCause};
ghost use Rattle.io_edge.specs.Files.{Files, Opens, SameNames};
ghost use Rattle.io_edge.specs.Reading.{Reads};

use crate::fault::SourceFault;

/// Opens files by name, and reads the one that was opened last.
///
/// After an `Err` nothing is said of the rest of that file until the next `Ok` of `open`.
pub trait Source {
    // The files, where they are told: no call changes them.
    ghost files: { Self → Option Files };

    // What is left of the opened file, where it is told.
    ghost rest: { Self → Option (List ℕ) };

    // How many faults there were, held at 2^64 - 1.
    ghost faults: { Self → ℕ };

    // The names that it may be asked for: no call changes them.
    ghost may_open: { Self → List ℕ → Type 0 };

    /// Opens the file of this name, which is to be read from its start.
    fn open(&mut self, name: &str) -> Result<(), SourceFault>
        requires { may_open self.old name.now }
        ensures opened { OnOk result (Opens (files self.old) name.now (rest self.new)) }
        ensures files { files self.new ≡ files self.old }
        ensures names { SameNames (may_open self.old) (may_open self.new) }
        ensures cause { HasCause (faults self.old) (faults self.new) result };

    /// Moves bytes from the rest of the file to the front of the buffer, and tells how many. None
    /// for a buffer with room is the end of the file.
    fn read(&mut self, buf: &mut [u8]) -> Result<usize, SourceFault>
        ensures bound { IfOk result (λ n. n ≤ length buf.new) }
        ensures bytes { IfOk result (λ n.
            Reads (rest self.old) (rest self.new) (take n buf.new) (length buf.new)) }
        ensures files { files self.new ≡ files self.old }
        ensures names { SameNames (may_open self.old) (may_open self.new) }
        ensures cause { HasCause (faults self.old) (faults self.new) result };
}
