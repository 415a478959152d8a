// The words that a run and its host exchange.
use rl_types::{ActionId, Key};

/// Why an action, or a condition, is called (the guide's chapter 3, and section 6.3 on scanners; the order of a
/// turn is this profile).
#[derive(Clone, Copy, Debug, PartialEq, Eq)]
pub enum CallKind {
    /// A from-state action, before the step is sought.
    From,
    /// A condition is asked.
    Ask,
    /// An action of a step.
    Do,
    /// An action of the error list, where there is no step.
    Error,
    /// A to-state action, at the end of a turn.
    To,
    /// An action of a token's list.
    Token,
    /// An action of the end-of-file list.
    Eof,
}

/// One question to the host. Positions count characters from the start of the session's input.
#[derive(Clone, Copy, Debug, PartialEq, Eq)]
pub struct Call {
    pub kind: CallKind,
    /// The action's number; of an `Ask` the condition's.
    pub action: ActionId,
    /// The turn's position, in characters from 0; at the end of input the input's length.
    pub at: u64,
    /// The session's next position as the call is made.
    pub next: u64,
    /// The turn's key; None at the end of input.
    pub key: Option<Key>,
    /// The open token's start, as the call is made.
    pub ts: Option<u64>,
    /// The longest match's end so far, as the call is made.
    pub te: Option<u64>,
}

/// A control statement of the called action that the host takes. Statements are numbered from 1 in text order, nested
/// ones too. The goal is the position that an `fexec` goes to, and is given exactly for an `fexec`.
#[derive(Clone, Copy, Debug, PartialEq, Eq)]
pub struct Pick {
    pub statement: u32,
    pub goal: Option<i64>,
}

/// What the host says to a call. From-state and to-state actions take Yes, a condition takes Yes or No, the others take
/// Yes or Picks. Stop may always be said.
#[derive(Clone, Copy, Debug, PartialEq, Eq)]
pub enum Answer {
    Yes,
    No,
    /// The statements that are taken, in order, up to and including the first transfer or break; the first None ends
    /// them.
    Picks([Option<Pick>; 4]),
    /// The session is to stop.
    Stop,
}

/// Why a session stopped (this profile). A pick that stops a session changes nothing; the picks before it are applied.
#[derive(Clone, Copy, Debug, PartialEq, Eq)]
pub enum Stop {
    /// No step, nothing kept, and the error list left the session in Error.
    ErrorState,
    /// A push found no room.
    StackFull(Pick),
    /// A pop found nothing.
    StackEmpty(Pick),
    /// A pick would go below the floor of its turn.
    Back(Pick),
    /// A pick would go back for the 65,536th time with no new character.
    Stuck(Pick),
    /// The open token is longer than `token_max`.
    Overlong,
    /// The input ended before the next position.
    PastEnd,
    /// The input ended within a character.
    HalfKey,
    /// The answer does not fit the call.
    Stray(Answer),
    /// The host stopped the session.
    HostStop,
}

/// Where a run has come.
#[derive(Clone, Copy, Debug, PartialEq, Eq)]
pub enum Outcome {
    /// It wants more input.
    Wants,
    /// A break was applied in the last turn.
    Broke,
    /// The input ended, and the end-of-file list was called.
    Ended,
    /// It stopped for good.
    Stopped(Stop),
}

/// What is told of a session's state.
#[derive(Clone, Copy, Debug, PartialEq, Eq)]
pub enum Verdict {
    /// The state is final.
    Final,
    /// The state is not final.
    Partial,
    /// The session stopped.
    Error,
}
