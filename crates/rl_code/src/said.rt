// What one word of code says.
use rl_run::{GoalBase, StatementKind};
use rl_types::Name;

/// A control statement as it is written: its entry is a name.
#[derive(Debug, Drop)]
pub struct Control {
    pub kind: StatementKind,
    /// Whether it stands inside no braces but the code's own.
    pub outer: bool,
    /// The entry that a goto, call or next names.
    pub target: Option<Name>,
    /// What the goal of an exec counts from.
    pub base: GoalBase,
    /// What is added to that, in characters.
    pub offset: i64,
}

/// What a word of code says.
#[derive(Debug, Drop)]
pub enum Saying {
    /// A control statement.
    Control(Control),
    /// `fentry(NAME)`, the state of the entry of this name.
    Entry(Name),
    /// `fpc`, the position.
    Position,
    /// `fc`, the character.
    Character,
    /// The word is left out in this profile, or has not its form.
    Misplaced,
}

/// A word of code, with what it says.
#[derive(Debug, Drop)]
pub struct Said {
    /// How many bytes of the code stand before the word.
    pub from: usize,
    pub saying: Saying,
}
