// Expressions without parentheses, in which names are numbers.
use rl_automata::{Class, Kind};
use rl_types::{ActionId, Boxed, KeyRange, List, Place};

/// One of the things that a literal or a regular expression has in a row.
#[derive(Debug, Drop)]
pub struct Item {
    /// The keys of one character; None for the empty word, `[]`.
    pub ranges: Option<List<KeyRange>>,
    /// Whether a `*` stands behind it.
    pub starred: bool,
}

/// What operators are applied to, with the keys of the machine's alphabet. Ranges ascend and neither overlap nor adjoin.
#[derive(Debug, Drop)]
pub enum Leaf {
    /// One character.
    Set(List<KeyRange>),
    /// The empty word.
    Null,
    /// No word.
    Nothing,
    /// Items one behind another, of which there are none (the empty word), or any number.
    Row(List<Item>),
}

/// How an operand is joined to those before it.
#[derive(Clone, Copy, Debug, PartialEq, Eq)]
pub enum Join {
    /// `|`
    Union,
    /// `&`
    Intersection,
    /// `-`
    Difference,
    /// `--`
    StrongDifference,
    /// `.`, or nothing between them
    Concatenation,
    /// `<:`
    LeftGuarded,
    /// `:>`
    EntryGuarded,
    /// `:>>`
    FinishGuarded,
}

/// How often an operand is repeated.
#[derive(Clone, Copy, Debug, PartialEq, Eq)]
pub enum Repetition {
    /// `*`
    Star,
    /// `**`
    LongestStar,
    /// `?`
    Optional,
    /// `+`
    Plus,
    /// `{n}`, `{,m}`, `{n,}` and `{n,m}`
    Count(Bounds),
}

/// The bounds of a count.
#[derive(Clone, Copy, Debug, PartialEq, Eq)]
pub struct Bounds {
    /// How often at least; 0 where none is given.
    pub least: u64,
    /// How often at most; None for any number.
    pub most: Option<u64>,
}

/// What is taken of everything else.
#[derive(Clone, Copy, Debug, PartialEq, Eq)]
pub enum Negation {
    /// `!`: of all words.
    Language,
    /// `^`: of all single characters.
    Character,
}

/// The sign of a negation.
#[derive(Clone, Copy, Debug, PartialEq, Eq)]
pub struct NegationSign {
    pub negation: Negation,
    pub place: Place,
}

/// The transitions that an embedding speaks of.
#[derive(Clone, Copy, Debug, PartialEq, Eq)]
pub enum Transitions {
    /// `>`
    Entering,
    /// `@`
    Finishing,
    /// `$`
    All,
    /// `%`
    Leaving,
}

/// What is embedded in an operand.
#[derive(Clone, Copy, Debug, PartialEq, Eq)]
pub enum Put {
    /// An action in transitions.
    Action(Transitions, ActionId),
    /// A priority in transitions: the number of its name, which says only which priorities have one name, and its value.
    Priority(Transitions, u32, i64),
    /// An action in states.
    Mark(Class, Kind, ActionId),
    /// A condition.
    When(ActionId),
}

/// An expression. Each place is that of the expression's first token.
#[cycle(expression)]
#[derive(Drop)]
pub enum Expression {
    /// What operators are applied to.
    Leaf(Leaf, Place),
    /// The expression of the definition with this number, from 0.
    Name(u32),
    /// Operands with their joins, from the left.
    Chain(Boxed<Expression>, List<Link>, Place),
    /// An operand with its repetitions, the innermost first.
    Repeated(Boxed<Expression>, List<Repetition>, Place),
    /// An operand behind the signs of its negations, the outermost first; the expression's first token is the first of them.
    Negated(List<NegationSign>, Boxed<Expression>),
    /// An operand with what is embedded in it, in order of appearance.
    Embedded(Boxed<Expression>, List<Put>, Place),
}

/// A further operand of a chain.
#[cycle(expression)]
#[derive(Drop)]
pub struct Link {
    pub join: Join,
    pub operand: Expression,
}
