// Why a source is not read.
use rl_types::{Fault, Limit};

/// Why a part, a token or a statement is not read.
#[derive(Clone, Copy, Debug, PartialEq, Eq)]
pub enum ReadFault {
    /// A fault of the source.
    Fault(Fault),
    /// A limit is passed.
    Limit(Limit),
    /// Want of memory.
    Memory,
}
