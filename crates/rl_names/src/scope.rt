// What an expression is read by.
use crate::texts::Texts;
use rl_draft::Definition;
use rl_types::Alphabet;

/// What an expression of a machine is read by.
#[derive(Clone, Copy)]
pub struct Scope<'a> {
    pub alphabet: Alphabet,
    /// The names of the machine's actions, in the order of their numbers.
    pub actions: &'a Texts<'a>,
    /// The names of its priorities, in the order of their numbers.
    pub priorities: &'a Texts<'a>,
    /// Its definitions so far.
    pub earlier: &'a [Definition],
    /// And their names.
    pub names: &'a Texts<'a>,
    /// The name of the definition that is read.
    pub owner: &'a [u8],
}
