// A store, a source and a sink.
ghost use Rattle.std.specs.Prelude.{◌≡◌, ◌≢◌, ◌≤◌, ◌<◌, List, ℕ, Option, length, IfOk, OnOk, OnErr, IsSome};
ghost use Rattle.rl_io.specs.Outside.{HasCause, Held, HoldsTextNames, Reads, Lacks, Writes, KeepsOthers, Moves, EndsAt, Appends, AppendsPrefix};

use thiserror::Error;

/// Why a store did not do what it was asked.
#[derive(Clone, Copy, Debug, PartialEq, Eq, Error)]
pub enum StoreFault {
    /// The name is absent.
    #[error("missing")]
    Missing,
    /// The store failed, and counted it.
    #[error("store failed")]
    Failed,
    /// Want of memory.
    #[error("out of memory")]
    Memory,
}

/// The source failed, and counted it.
#[derive(Clone, Copy, Debug, PartialEq, Eq)]
pub struct Failed;

/// Why a sink did not take a piece whole.
#[derive(Clone, Copy, Debug, PartialEq, Eq, Error)]
pub enum SinkFault {
    /// The sink failed, and counted it.
    #[error("output failed")]
    Failed,
    /// Want of memory.
    #[error("out of memory")]
    Memory,
}

/// A store of files under names (this profile). Its count of faults never falls, ends at 2^64 - 1, and rises at each
/// call that answers `Failed`; one that stands at its end counts as risen. A call with another answer leaves it.
pub trait Store {
    /// The bytes under each name, where the store tells them. What is told once stays told.
    ghost held: { Self → Held };

    /// How many calls have failed.
    ghost faults: { Self → ℕ };

    /// The bytes of a name. It changes nothing that is held. `Missing` comes only where the name is absent.
    fn read(&mut self, name: &str) -> Result<Vec<u8>, StoreFault>
        ensures bytes { IfOk result (λ bytes. Reads (held self.old) name.now bytes.items) }
        ensures missing { result ≡ Err StoreFault.Missing → Lacks (held self.old) name.now }
        ensures unchanged { held self.new ≡ held self.old }
        ensures cause { HasCause (faults self.old) (faults self.new) (result ≡ Err StoreFault.Failed) };

    /// Sets the bytes of a name, which need not be there before, so it never answers `Missing`. No other name
    /// changes, whatever it answers. After `Failed` the name may hold anything or be absent; after `Memory` it holds
    /// what it held.
    fn write(&mut self, name: &str, bytes: &[u8]) -> Result<(), StoreFault>
        ensures written { OnOk result (Writes (held self.old) (held self.new) name.now bytes.now) }
        ensures others { KeepsOthers (held self.old) (held self.new) name.now }
        ensures memory { result ≡ Err StoreFault.Memory → held self.new ≡ held self.old }
        ensures never_missing { result ≢ Err StoreFault.Missing }
        ensures told { IsSome (held self.old) → IsSome (held self.new) }
        ensures cause { HasCause (faults self.old) (faults self.new) (result ≡ Err StoreFault.Failed) };

    /// A name that is not UTF-8 is in no store.
    ghost text_names: { (store : Self) → HoldsTextNames (held store) };
}

/// A source of bytes (this profile). Its count of faults is as a store's.
pub trait Source {
    /// The bytes that are left, where the source tells them. What is told once stays told.
    ghost left: { Self → Option (List ℕ) };

    /// How many calls have failed.
    ghost faults: { Self → ℕ };

    /// Moves the first bytes that are left to the front of the buffer and gives their number, which is at most the
    /// buffer's length. For a buffer that is not empty, 0 comes exactly where none is left. `Failed` takes none.
    fn read(&mut self, into: &mut [u8]) -> Result<usize, Failed>
        ensures bound { IfOk result (λ n. n ≤ length into.old) }
        ensures bytes { IfOk result (λ n. Moves (left self.old) (left self.new) n into.old into.new) }
        ensures end { IfOk result (λ n. 0 < length into.old → EndsAt (left self.old) n) }
        ensures failed { OnErr result (left self.new ≡ left self.old) }
        ensures told { IsSome (left self.old) → IsSome (left self.new) }
        ensures cause { HasCause (faults self.old) (faults self.new) (result ≡ Err (record {})) };
}

/// A sink for bytes (this profile). Its count of faults is as a store's.
pub trait Sink {
    /// The bytes that were written, where the sink tells them. What is told once stays told.
    ghost written: { Self → Option (List ℕ) };

    /// How many calls have failed.
    ghost faults: { Self → ℕ };

    /// Adds the piece at the end of what was written. `Failed` adds a prefix of it, and `Memory` adds nothing.
    fn write_all(&mut self, piece: &[u8]) -> Result<(), SinkFault>
        ensures ok { OnOk result (Appends (written self.old) (written self.new) piece.now) }
        ensures prefix { OnErr result (AppendsPrefix (written self.old) (written self.new) piece.now) }
        ensures memory { result ≡ Err SinkFault.Memory → written self.new ≡ written self.old }
        ensures told { IsSome (written self.old) → IsSome (written self.new) }
        ensures cause { HasCause (faults self.old) (faults self.new) (result ≡ Err SinkFault.Failed) };
}
