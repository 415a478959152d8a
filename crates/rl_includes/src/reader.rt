// How a file is read, and what of it.
use rl_grammar::syntax::Statement;
use rl_types::{List, Name, Place};

/// How a file is read.
#[derive(Drop)]
pub struct Reader {
    /// Its name, as it was looked up.
    pub name: Name,
    /// The files that are being read, the source first and this one last.
    pub being_read: List<Name>,
    /// The number of this one.
    pub number: u64,
    pub extent: Extent,
    /// How many more files may be read within one another, from this one on.
    pub left: u64,
}

/// What of a file is read.
#[derive(Drop)]
pub enum Extent {
    /// The source itself: all statements.
    Whole,
    /// An included file: the statements of one machine.
    Included(Part),
}

/// What a statement belongs to.
#[derive(Drop)]
pub struct Part {
    /// The machine of its file.
    pub sought: Name,
    /// The machine of the source.
    pub machine: Name,
    /// The block of the source.
    pub block: u64,
}

/// A statement of a file, and the block of the file that it stands in, from 0.
#[derive(Drop)]
pub struct Located {
    pub block: u64,
    pub statement: Statement,
}

/// An `include` that is to be followed.
#[derive(Drop)]
pub struct Request {
    /// Where it stands.
    pub place: Place,
    /// The name of its file, as it is looked up.
    pub file: Name,
    /// Whether it names the machine.
    pub named: bool,
    /// What of the file is read.
    pub part: Part,
}

/// What the store says of a file.
#[derive(Drop)]
pub enum Answer {
    Text(List<u8>),
    Missing,
    Failed,
}
