// What is to be printed, and where.

/// A `write` statement (the guide's section 5.7): where it stands in the source file, and whose it is. Jobs are ordered
/// by their places.
#[derive(Clone, Copy, Debug, PartialEq, Eq, PartialOrd, Ord)]
pub struct Job {
    /// The number of its block, from 0.
    pub block: u32,
    /// The line of its first token, from 1.
    pub line: u32,
    /// The column of its first token in bytes, from 1.
    pub col: u32,
    /// The number of its machine, from 0.
    pub machine: usize,
    /// Its number among the `write` statements of its machine, from 0.
    pub number: usize,
}
