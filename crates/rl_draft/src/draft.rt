// The definitions of one machine.
use crate::Expression;
use rl_model::{ActionDef, Frame, Write};
use rl_types::{ActionId, Alphabet, List, Name, Place};

/// A pattern of a scanner.
#[derive(Drop)]
pub struct Pattern {
    /// What it matches.
    pub expression: Expression,
    /// The action of its token, if it has one.
    pub token: Option<ActionId>,
    /// The place of its first token.
    pub place: Place,
}

/// What a definition gives its name to.
#[derive(Drop)]
pub enum Value {
    /// An expression.
    Expression(Expression),
    /// The patterns of a scanner, in text order, and the place of its `|*`.
    Scanner(List<Pattern>, Place),
}

/// Whether a definition makes an entry.
#[derive(Clone, Copy, Debug, PartialEq, Eq)]
pub enum Sign {
    /// `=`: no.
    Name,
    /// `:=`: yes.
    Instantiation,
}

/// A definition or an instantiation.
#[derive(Drop)]
pub struct Definition {
    /// The name that it gives.
    pub name: Name,
    /// The place of the name.
    pub place: Place,
    /// Whether it makes an entry.
    pub sign: Sign,
    /// What the name stands for.
    pub value: Value,
}

/// One machine of a source, before its expressions are rewritten.
#[derive(Drop)]
pub struct Draft {
    /// The name that its `machine` statements give.
    pub machine: Name,
    /// The type of the input's characters.
    pub alphabet: Alphabet,
    /// Its definitions, in the order in which they are read; their numbers count from 0.
    pub definitions: List<Definition>,
    /// Its actions in the order in which their definitions, or the `{` of those without a name, are read; an action's
    /// number is its place here, from 1.
    pub actions: List<ActionDef>,
    /// What the printed code is given from the source.
    pub frame: Frame,
    /// Its `write` statements in text order.
    pub writes: List<Write>,
}
