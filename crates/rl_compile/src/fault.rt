// Why a source does not compile.
use rl_types::{Fault, Limit, Name};

/// Why a source has no Specs, or a machine of it no tables. The name is that of the file of the place, or of the file
/// that was to be read, as it was looked up.
#[derive(Debug, Drop)]
pub enum CompileFault {
    /// The first fault of the source, F1 to F19.
    Fault(Fault, Name),
    /// The first limit that it passes, L1 to L10.
    Limit(Limit, Name),
    /// The store has no such file.
    Missing(Name),
    /// The store failed at this file, and counted it.
    StoreFailed(Name),
    /// Want of memory.
    Memory,
}
