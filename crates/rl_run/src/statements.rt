// Control statements.
use rl_types::EntryId;

/// The control statements of action code (the guide's sections 3.4 and 6.1 to 6.3, in this profile).
#[derive(Clone, Copy, Debug, PartialEq, Eq)]
pub enum StatementKind {
    /// `fhold;` moves back by one character.
    Hold,
    /// `fexec E;` sets the next character.
    Exec,
    /// `fgoto NAME;` goes to an entry's start.
    Goto,
    /// `fcall NAME;` pushes the state and goes to an entry's start.
    Call,
    /// `fret;` takes the state from the stack.
    Ret,
    /// `fnext NAME;` sets the state, and the list goes on.
    Next,
    /// `fbreak;` breaks the run off behind the character.
    Break,
}

/// What the goal of an `fexec` counts from.
#[derive(Clone, Copy, Debug, PartialEq, Eq)]
pub enum GoalBase {
    /// The goal is not of a form that is read.
    Unread,
    /// The position of the character.
    P,
    /// The token's start.
    Ts,
    /// The token's end.
    Te,
}

/// A control statement of an action.
#[derive(Clone, Copy, Debug, PartialEq, Eq)]
pub struct Statement {
    pub kind: StatementKind,
    /// Whether it stands inside no braces but the action's own.
    pub outer: bool,
    /// The entry that a goto, call or next names.
    pub entry: Option<EntryId>,
    /// What the goal of an exec counts from.
    pub base: GoalBase,
    /// What is added to that, in characters.
    pub offset: i64,
}
