// The words of code that are read.
use rl_run::StatementKind;

/// A word of action code that is read (the guide's sections 3.4 and 6.1 to 6.3).
#[derive(Clone, Copy, Debug, PartialEq, Eq)]
pub enum CodeWord {
    /// A control statement: `fhold`, `fexec`, `fgoto`, `fcall`, `fret`, `fnext` or `fbreak`.
    Control(StatementKind),
    /// `fentry`, the value of an entry's state.
    Entry,
    /// `fpc`, the value of the position.
    Position,
    /// `fc`, the value of the character.
    Character,
    /// `fcurs` or `ftargs`, which this profile leaves out.
    LeftOut,
}
