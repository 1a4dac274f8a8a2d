// A sink that never fails.
ghost use Rattle.std.specs.Prelude.{◌≡◌, ◌+◌, ◌-◌, ◌^◌, ◌<◌, min, length, Ok, IfOk};
ghost use Rattle.io_edge.specs.Faults.{HasCause, Rose};

use crate::fault::SinkFault;
use crate::sink::Sink;
use std::marker::Model;

/// A sink that takes every piece whole and never fails: its count of faults is always 0. It tells no
/// bytes, keeps only how many it took, and contracts see it as that number.
#[derive(Drop)]
pub struct SureSink {
    taken: u64,
}

impl Model for SureSink {
    ghost use Rattle.std.specs.Prelude.{ℕ};

    ghost Value = { ℕ };

    ghost view = { λ s. s.taken };
}

impl SureSink {
    /// A sink that took nothing.
    pub fn new() -> SureSink
        ensures { result ≡ 0 }
    {
        SureSink { taken: 0 }
    }

    /// How many bytes it took, held at 2^64 - 1.
    pub fn taken(&self) -> u64
        ensures { result ≡ self.now }
    {
        self.taken
    }
}

impl Sink for SureSink {
    ghost use Rattle.std.specs.Prelude.{None};

    ghost contents = { λ _. None };

    ghost faults = { λ _. 0 };

    /// Never fails, and takes the piece whole.
    fn write(&mut self, bytes: &[u8]) -> Result<usize, SinkFault>
        ensures answer { result ≡ Ok (length bytes.now) }
        ensures state { self.new ≡ min (self.old + length bytes.now) (2 ^ 64 - 1) }
        ensures cause { HasCause 0 0 result }
        ensures stuck { IfOk result (λ n. n ≡ 0 → 0 < length bytes.now → Rose 0 0) }
    {
        self.taken = self.taken.saturating_add(bytes.len() as u64);
        Ok(bytes.len())
    }
}
