// Standard output, as a sink.
ghost use Rattle.std.specs.Prelude.{◌≡◌, ◌<◌, length, IfOk, if◌then◌else◌};
ghost use Rattle.std.specs.Io.{WritesAtMost};
ghost use Rattle.io_edge.specs.Faults.{HasCause, Rose, raised};
ghost use Rattle.io_edge.specs.Writing.{is_refused};

use crate::calls::raised;
use crate::fault::SinkFault;
use crate::sink::Sink;
use std::marker::Model;

/// Standard output, to which each piece goes at once. It tells no bytes, and contracts see it as its
/// count of faults.
#[derive(Drop)]
pub struct StdoutSink<P: Print> {
    out: P,
    faults: u64,
}

impl<P: Print> Model for StdoutSink<P> {
    ghost use Rattle.std.specs.Prelude.{ℕ};

    ghost Value = { ℕ };

    ghost view = { λ s. s.faults };
}

impl<P: Print> StdoutSink<P> {
    /// A sink over the runtime that `main` has.
    pub fn new(out: P) -> StdoutSink<P>
        ensures { result ≡ 0 }
    {
        StdoutSink { out, faults: 0 }
    }
}

impl<P: Print> Sink for StdoutSink<P> {
    ghost use Rattle.std.specs.Prelude.{None};

    ghost contents = { λ _. None };

    ghost faults = { λ s. s };

    fn write(&mut self, bytes: &[u8]) -> Result<usize, SinkFault>
        ensures bound { WritesAtMost result bytes.now }
        ensures count { self.new ≡
            (if is_refused result bytes.now then raised self.old else self.old) }
        ensures cause { HasCause self.old self.new result }
        ensures stuck { IfOk result (λ n. n ≡ 0 → 0 < length bytes.now → Rose self.old self.new) }
    {
        match self.out.write_some(bytes) {
            Ok(count) => {
                if count == 0 && !bytes.is_empty() {
                    self.faults = raised(self.faults);
                }
                Ok(count)
            }
            Err(_) => {
                self.faults = raised(self.faults);
                Err(SinkFault)
            }
        }
    }
}
