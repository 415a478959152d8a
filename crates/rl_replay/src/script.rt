// The events of a script.
use rl_types::{List, Name};

/// What one line of a script says (this profile).
#[derive(Debug, Drop)]
pub enum Event {
    /// A session starts, at the entry that is named, or else at the start entry.
    Open(Name, Option<Name>),
    /// The next bytes of a session's input.
    Piece(Name, List<u8>),
    /// A session's input ends.
    End(Name),
    /// The answer to the n-th call of an action in a session, counted from 1 over the calls that may have picks: statement
    /// numbers, and the goals that are given.
    Pick(Name, Name, u32, List<(u32, Option<i64>)>),
    /// The answer to the n-th question, counted from 1, that a session asks of a condition.
    Say(Name, Name, u32, bool),
}

/// An event, and the number of its line, from 1.
#[derive(Debug, Drop)]
pub struct Line {
    pub number: u64,
    pub event: Event,
}

/// The lines of a script that say something, in order.
#[derive(Debug, Drop)]
pub struct Script {
    pub lines: List<Line>,
}

/// Why a script is refused; lines are numbered from 1.
#[derive(Clone, Copy, Debug, PartialEq, Eq)]
pub enum ScriptFault {
    /// The line has none of the forms.
    BadLine { line: u64 },
    /// A session is opened a second time, or a call is answered a second time.
    Twice { line: u64 },
    /// A piece or an end of a session that is not live, or an answer for a session that no line opens.
    NoSession { line: u64 },
    /// No entry has the name.
    NoEntry { line: u64 },
    /// No action, or no condition, has the name.
    NoName { line: u64 },
    /// 1,024 sessions are live.
    Full { line: u64 },
    /// Want of memory.
    Memory,
}
