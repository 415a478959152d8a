// What the definitions of a machine are read by.
use crate::texts::Texts;
use rl_types::Alphabet;

/// What definitions are read by, beside those before them.
#[derive(Clone, Copy)]
pub struct Base<'a> {
    pub alphabet: Alphabet,
    /// The names of the machine's actions.
    pub actions: &'a Texts<'a>,
    /// The names of its priorities.
    pub priorities: &'a Texts<'a>,
}
