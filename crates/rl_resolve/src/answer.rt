// What the command line runs, and why a source has no Specs.
use rl_types::{Fault, Limit, Name};

/// Which machine the command line runs.
#[derive(Clone, Copy)]
pub enum Runs<'a> {
    /// None.
    Nobody,
    /// The first machine of the source.
    First,
    /// The machine of this name.
    Named(&'a str),
}

/// Why a source has no Specs. The name is that of the file of the place, or of the file that was to be read, as it was
/// looked up.
#[derive(Debug, Drop)]
pub enum ResolveFault {
    /// A fault: what an included file itself has, F4 to F6, F8, F9, F13, F14 or F16 to F18.
    Fault(Fault, Name),
    /// A limit is passed: what an included file itself passes, L2, L4, L5, L7, L9 or L10.
    Limit(Limit, Name),
    /// The store has no such file.
    Missing(Name),
    /// The store failed at this file, and counted it.
    StoreFailed(Name),
    /// Want of memory.
    Memory,
}
