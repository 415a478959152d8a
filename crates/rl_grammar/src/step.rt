// A statement with what is around it.
use crate::syntax::Statement;
use rl_types::Name;

/// A statement with what is around it.
#[derive(Drop)]
pub struct Step {
    /// The machine of the source that it belongs to. A `machine` statement belongs to the machine that it names.
    pub machine: Name,
    /// The number of its file; the source has 0, and cannot be included.
    pub file: u64,
    /// The block of the source that it stands in, from 0: for a statement of an included file the block of the `include`.
    pub block: u64,
    /// The statement.
    pub statement: Statement,
}
