// A text in memory, as a sink that fails where it is told to.
ghost use Rattle.std.specs.Prelude.{◌≡◌, ◌++◌, ◌∷◌, [], ◌<◌, ◌≤◌, not, is_ok, length, None, Some, IfOk, OnOk, OnErr};
ghost use Rattle.io_edge.specs.Faults.{HasCause, Rose};
ghost use Rattle.io_edge.specs.SinkState.{after_write, fails_next, fitting};

use crate::calls::{is_named, offered, raised};
use crate::fault::SinkFault;
use crate::sink::Sink;
use page_model::NoMemory;
use std::alloc::Global;
use std::marker::Model;

/// A sink that keeps its bytes in memory. It has room for so many in all, takes what fits, no more at
/// a time than are doled out to it, and fails at the calls that are named for it.
#[derive(Drop)]
pub struct MemorySink {
    bytes: Vec<u8>,
    room: u32,
    most: Option<u32>,
    failing: Vec<u32>,
    calls: u64,
    faults: u64,
}

impl Model for MemorySink {
    ghost use Rattle.std.specs.Prelude.{◌≤◌, vec_len, vec_capacity};
    ghost use Rattle.io_edge.specs.Calls.{IsDole};
    ghost use Rattle.io_edge.specs.SinkState.{SinkState, sink_code};

    ghost Value = { SinkState };

    ghost coded = { sink_code };

    ghost view = { λ s. record {
      bytes = s.bytes.items;
      room = s.room;
      most = s.most;
      failing = s.failing.items;
      calls = s.calls;
      faults = s.faults;
    } };

    ghost invariant = { λ s. (s.room ≤ vec_capacity s.bytes) × IsDole s.most };
}

impl MemorySink {
    /// An empty sink with room for so many bytes. All memory for them is taken here, so that a write
    /// takes none.
    pub fn new(alloc: Global, room: u32) -> Result<MemorySink, NoMemory>
        ensures { IfOk result (λ sink. sink ≡
            record { bytes = []; room = room; most = None; failing = []; calls = 0; faults = 0 }) }
    {
        Ok(MemorySink {
            bytes: Vec::with_capacity(alloc, room as usize)?,
            room,
            most: None,
            failing: Vec::new(alloc),
            calls: 0,
            faults: 0,
        })
    }

    /// Names a call of `write` that is to fail. They are numbered from 1.
    pub fn fail_at(&mut self, call: u32) -> Result<(), NoMemory>
        ensures ok { OnOk result (self.new ≡
            record self.old { failing = self.old.failing ++ call ∷ [] }) }
        ensures err { OnErr result (self.new ≡ self.old) }
    {
        self.failing.push(call)?;
        Ok(())
    }

    /// Lets each later write take at most so many bytes.
    pub fn dole(&mut self, most: u32)
        requires { 1 ≤ most }
        ensures { self.new ≡ record self.old { most = Some most } }
    {
        self.most = Some(most);
    }

    /// The bytes that it took.
    pub fn bytes(&self) -> &[u8]
        ensures { result.now ≡ self.now.bytes }
    {
        self.bytes.as_slice()
    }
}

impl Sink for MemorySink {
    ghost contents = { λ s. Some s.bytes };

    ghost faults = { λ s. s.faults };

    /// Fails exactly where the call is named to fail, and else takes what fits, but no more than are
    /// doled out.
    fn write(&mut self, bytes: &[u8]) -> Result<usize, SinkFault>
        ensures answer { is_ok result ≡ not (fails_next self.old) }
        ensures count { IfOk result (λ n. n ≡ length (fitting self.old bytes.now)) }
        ensures state { self.new ≡ after_write self.old bytes.now }
        ensures cause { HasCause self.old.faults self.new.faults result }
        ensures stuck { IfOk result (λ n.
            n ≡ 0 → 0 < length bytes.now → Rose self.old.faults self.new.faults) }
        ensures full { IfOk result (λ n.
            n ≡ 0 → 0 < length bytes.now → self.old.room ≤ length self.old.bytes) }
    {
        self.calls = raised(self.calls);
        if is_named(self.failing.as_slice(), self.calls) {
            self.faults = raised(self.faults);
            return Err(SinkFault);
        }
        let free = (self.room as usize).saturating_sub(self.bytes.len());
        let piece = offered(self.most, bytes);
        let count = free.min(piece.len());
        self.bytes.extend_from_slice(&piece[..count]).unwrap();
        if count == 0 && !bytes.is_empty() {
            self.faults = raised(self.faults);
        }
        Ok(count)
    }
}
