// Where a text is written to.
ghost use Rattle.std.specs.Prelude.{◌≡◌, ◌<◌, ℕ, List, Option, length, IfOk};
ghost use Rattle.std.specs.Io.{WritesAtMost};
ghost use Rattle.std.specs.Io.KnownBytes.{WriteAppends};
ghost use Rattle.io_edge.specs.Faults.{HasCause, Rose};

use crate::fault::SinkFault;

/// Takes bytes, a piece at a time.
pub trait Sink {
    // The bytes that it took, where they are told.
    ghost contents: { Self → Option (List ℕ) };

    // How many faults there were, held at 2^64 - 1.
    ghost faults: { Self → ℕ };

    /// Takes the first bytes of a piece, and tells how many. To take none of a piece that has some
    /// is a fault too, and is counted. An `Err` takes none.
    fn write(&mut self, bytes: &[u8]) -> Result<usize, SinkFault>
        ensures bound { WritesAtMost result bytes.now }
        ensures appends { WriteAppends (contents self.old) (contents self.new) result bytes.now }
        ensures cause { HasCause (faults self.old) (faults self.new) result }
        ensures stuck { IfOk result (λ n.
            n ≡ 0 → 0 < length bytes.now → Rose (faults self.old) (faults self.new)) };
}
