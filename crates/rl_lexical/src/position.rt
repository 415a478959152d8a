// Where a byte stands.
use rl_types::Place;

/// Where a byte stands in a file: how many bytes are before it, and its place.
#[derive(Clone, Copy, Debug, PartialEq, Eq)]
pub struct Position {
    pub from: u64,
    pub place: Place,
}

/// What stands between the marks of a block.
#[derive(Clone, Copy, Debug, PartialEq, Eq)]
pub struct Body {
    /// How many bytes of the block's text are before it.
    pub before: u64,
    /// How many bytes it has.
    pub length: u64,
    /// Where it begins.
    pub at: Position,
}
