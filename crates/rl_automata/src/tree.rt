// Expression trees.
use rl_types::{ActionId, CondId, KeyRange, List};

/// What an embedding puts onto transitions.
#[derive(Clone, Copy, Debug, PartialEq, Eq)]
pub enum Label {
    /// A stamp, and the action.
    Action(u32, ActionId),
    /// A stamp, the number of the priority's name, and its value.
    Prior(u32, u32, i64),
}

/// The states that a state embedding marks (the guide's section 3.2).
#[derive(Clone, Copy, Debug, PartialEq, Eq)]
pub enum Class {
    /// `>`: the start.
    Start,
    /// `<`: all but the start.
    NotStart,
    /// `$`: all.
    All,
    /// `%`: the final ones.
    Final,
    /// `@`: those that are not final.
    NotFinal,
    /// `<>`: those that are neither the start nor final.
    Middle,
}

/// When the action of a state embedding is called (the guide's section 3.2).
#[derive(Clone, Copy, Debug, PartialEq, Eq)]
pub enum Kind {
    /// `~`: at the end of each turn that leaves the session in the state.
    To,
    /// `*`: at the beginning of each turn in the state.
    From,
    /// `/`: at the end of the input.
    Eof,
    /// `!`: where a character has no transition.
    Error,
}

/// An expression, after the reading has rewritten it (the guide's sections 2.3, 2.5, 3.1, 3.2 and 6.5).
#[derive(Debug, Drop)]
pub enum Tree {
    /// One character, whose key lies in one of the ranges.
    Set(List<KeyRange>),
    /// The empty word.
    Null,
    /// No word.
    Nothing,
    /// `a | b`.
    Union(Box<Tree>, Box<Tree>),
    /// `a & b`.
    And(Box<Tree>, Box<Tree>),
    /// `a - b`.
    Minus(Box<Tree>, Box<Tree>),
    /// `a . b`.
    Cat(Box<Tree>, Box<Tree>),
    /// `a*`, with the major stamp that the actions of a new round get.
    Star(Box<Tree>, u32),
    /// `a > label`: on the transitions out of the start.
    Enter(Box<Tree>, Label),
    /// `a @ label`: on the transitions into a final state.
    Finish(Box<Tree>, Label),
    /// `a $ label`: on every transition.
    All(Box<Tree>, Label),
    /// `a % label`: on the transitions that leave a final state by a concatenation or a repetition.
    Leave(Box<Tree>, Label),
    /// A state embedding: the states, when its action is called, the stamp and the action.
    Mark(Box<Tree>, Class, Kind, u32, ActionId),
    /// `a when condition`: each transition exists only where the condition holds.
    When(Box<Tree>, CondId),
}
