// What a session is run with, and how far a turn has come.
use crate::Stop;
use rl_types::Key;

/// The bounds of a session (this profile).
#[derive(Clone, Copy, Debug, PartialEq, Eq)]
pub struct Settings {
    /// The most entries of the stack, at most 1,024.
    pub stack: u32,
    /// How many characters before the greatest position stay readable, 1 to 4,096.
    pub look: u32,
    /// The greatest length of a token in characters, 1 to 1,048,576.
    pub token_max: u32,
}

/// How far a list of calls, or a turn, has come.
#[derive(Clone, Copy, Debug, PartialEq, Eq)]
pub enum Flow {
    /// Nothing has ended the list.
    Goes,
    /// A transfer has ended it.
    Jumps,
    /// A break has ended it.
    Breaks,
    /// The session stops.
    Stops(Stop),
}

/// Which conditions hold, unless the session stops: bit i - 1 stands for condition i.
#[derive(Clone, Copy, Debug, PartialEq, Eq)]
pub struct Heard {
    pub flow: Flow,
    pub hold: u8,
}

/// The constants of a turn, or of the end of input.
#[derive(Clone, Copy, Debug, PartialEq, Eq)]
pub struct Spot {
    /// The position, in characters.
    pub at: u64,
    /// The character's key; None at the end of input.
    pub key: Option<Key>,
    /// The least position that a pick may go back to.
    pub floor: u64,
    /// Whether the end-of-file list is called.
    pub is_end: bool,
}
