// What a source says of one machine.
use rl_automata::Tree;
use rl_run::Statement;
use rl_types::{ActionId, Alphabet, Code, List, Name, Place};

/// A pattern of a scanner (the guide's section 6.3).
#[derive(Debug, Drop)]
pub struct Pattern {
    /// What it matches.
    pub tree: Tree,
    /// The action of its token, if it has one.
    pub token: Option<ActionId>,
    /// The place of its first token.
    pub place: Place,
}

/// The expression of an entry, in which all names are followed and all operators are those of `Tree`.
#[derive(Debug, Drop)]
pub enum Root {
    /// An expression.
    Plain(Tree),
    /// The patterns of a scanner, in text order.
    Scanner(List<Pattern>),
}

/// An instantiation, `NAME := ..;` (the guide's section 2.1.3).
#[derive(Debug, Drop)]
pub struct Entry {
    /// Its name.
    pub name: Name,
    /// Its expression.
    pub root: Root,
    /// The place of each node's first token, in post-order: operands before their operator, the left one first. A
    /// scanner has the nodes of its patterns in order, and then itself.
    pub places: List<Place>,
}

/// An action that the source defines or embeds (the guide's section 3).
#[derive(Debug, Drop)]
pub struct ActionDef {
    /// Its name. An action without one is called by the place of its `{`, as `@LINE:COL`, or `@FILE:LINE:COL` with the
    /// file's number where that is not 0 (this profile).
    pub name: Name,
    /// Its code, from `{` to `}`.
    pub code: Code,
    /// The control statements in its code, in text order.
    pub statements: List<Statement>,
    /// The place of its `{`.
    pub place: Place,
}

/// What the printed code is given from the source, beside the tables (the guide's sections 5.4 and 5.5).
#[derive(Debug, Drop)]
pub struct Frame {
    /// The text of the last `access` statement; empty without one.
    pub access: Code,
    /// The text of the last `variable` statement of each name, in order of the names' first use.
    pub variables: List<(Name, Code)>,
    /// Whether `#line` is printed.
    pub marked: bool,
}

/// Which text a `write` statement stands for (the guide's section 5.7).
#[derive(Clone, Copy, Debug, PartialEq, Eq)]
pub enum WriteKind {
    /// The tables.
    Data,
    /// The code that sets a session to its start.
    Init,
    /// The code that runs the machine.
    Exec,
}

/// A `write` statement.
#[derive(Clone, Copy, Debug, PartialEq, Eq)]
pub struct Write {
    /// The number of its block in the source file, from 0.
    pub block: u32,
    /// What it stands for.
    pub kind: WriteKind,
    /// The place of its first token.
    pub place: Place,
}

/// One machine of a source.
#[derive(Debug, Drop)]
pub struct Spec {
    /// The name that its `machine` statements give.
    pub machine: Name,
    /// The type of the input's characters.
    pub alphabet: Alphabet,
    /// Its instantiations in text order; an entry's number is its place here, from 1.
    pub entries: List<Entry>,
    /// Its actions in the order in which their definitions, or the `{` of those without a name, are read; an action's
    /// number is its place here, from 1.
    pub actions: List<ActionDef>,
    /// The actions that are conditions, in order of their first `when`; a condition's number is its place here, from 1.
    pub conds: List<ActionId>,
    /// What the printed code is given from the source.
    pub frame: Frame,
    /// Its `write` statements in text order.
    pub writes: List<Write>,
    /// The names of all files that were read, by their numbers.
    pub files: List<Name>,
}
