// A sink in memory.
use crate::calls::Calls;
use crate::{Sink, SinkFault};
use std::alloc::Global;
use std::marker::Model;

/// A sink in memory, which tells what was written and fails at chosen calls. Contracts see the bytes and the calls.
#[derive(Drop)]
pub struct MemSink {
    bytes: Vec<u8>,
    calls: Calls,
}

impl Model for MemSink {
    ghost use Rattle.rl_io.specs.Memory.{WrittenBytes};

    ghost Value = { WrittenBytes };

    ghost view = { λ s. record { bytes = s.bytes.items; calls = s.calls } };
}

impl MemSink {
    ghost use Rattle.std.specs.Prelude.{◌≡◌, []};
    ghost use Rattle.rl_io.specs.Memory.{no_calls};

    /// An empty sink whose calls, numbered from 1, fail exactly at the numbers in `fails`. It takes no memory.
    pub fn new(alloc: Global, fails: Vec<u64>) -> MemSink
        ensures { result ≡ record { bytes = []; calls = no_calls fails.items } }
    {
        MemSink {
            bytes: Vec::new(alloc),
            calls: Calls::new(fails),
        }
    }

    /// All bytes that were written, in order.
    pub fn bytes(&self) -> &[u8]
        ensures { result.now ≡ self.now.bytes }
    {
        self.bytes.as_slice()
    }
}

impl Sink for MemSink {
    ghost use Rattle.std.specs.Prelude.{◌≡◌, OnOk, OnErr, IsSome, Some};
    ghost use Rattle.rl_io.specs.Outside.{HasCause, Appends, AppendsPrefix};
    ghost use Rattle.rl_io.specs.Memory.{CountsCall};

    ghost written = { λ s. Some s.bytes };

    ghost faults = { λ s. s.calls.faults };

    fn write_all(&mut self, piece: &[u8]) -> Result<(), SinkFault>
        ensures ok { OnOk result (Appends (Some self.old.bytes) (Some self.new.bytes) piece.now) }
        ensures prefix { OnErr result (AppendsPrefix (Some self.old.bytes) (Some self.new.bytes) piece.now) }
        ensures memory { result ≡ Err SinkFault.Memory → self.new.bytes ≡ self.old.bytes }
        ensures told { IsSome (Some self.old.bytes) → IsSome (Some self.new.bytes) }
        ensures cause { HasCause self.old.calls.faults self.new.calls.faults (result ≡ Err SinkFault.Failed) }

        // It fails exactly at the calls that were chosen, and adds nothing then.
        ensures calls { CountsCall self.old.calls self.new.calls (result ≡ Err SinkFault.Failed) }
        ensures refused { OnErr result (self.new.bytes ≡ self.old.bytes) }
    {
        if self.calls.next_fails() {
            return Err(SinkFault::Failed);
        }
        match self.bytes.extend_from_slice(piece) {
            Ok(()) => Ok(()),
            Err(_) => Err(SinkFault::Memory),
        }
    }
}
