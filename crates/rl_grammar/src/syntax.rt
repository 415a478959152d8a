// What the tokens of a block spell. Each node keeps the places of its own tokens.
use rl_types::{Boxed, List, Place};

/// A token that stands for its text.
#[derive(Drop)]
pub struct Word {
    pub text: List<u8>,
    pub place: Place,
}

/// The statements of a block.
#[derive(Drop)]
pub struct Syntax {
    pub statements: List<Statement>,
    /// The place of the block's end.
    pub end: Place,
}

/// A statement of a block.
#[derive(Drop)]
pub enum Statement {
    Machine(Machine),
    Include(Include),
    Alphtype(Alphtype),
    Access(Access),
    Variable(Variable),
    Write(Write),
    Action(Action),
    Definition(Definition),
}

/// `machine NAME;` (the guide's section 2.1.1)
#[derive(Drop)]
pub struct Machine {
    pub start: Place,
    pub name: Word,
    pub semicolon: Place,
}

/// `include [NAME] 'FILE';` (the guide's section 2.1.4)
#[derive(Drop)]
pub struct Include {
    pub start: Place,
    /// The machine whose statements are read; without it the current one.
    pub machine: Option<Word>,
    pub file: Word,
    pub semicolon: Place,
}

/// `alphtype char;`, or with `short` or `int`, each behind `unsigned` or not (the guide's section 5.2)
#[derive(Drop)]
pub struct Alphtype {
    pub start: Place,
    /// The place of the word `unsigned`, where it stands.
    pub unsigned: Option<Place>,
    /// How wide the characters are.
    pub word: AlphabetWord,
    pub semicolon: Place,
}

/// How wide the characters of an alphabet are, with the place of its word.
#[derive(Clone, Copy)]
pub enum AlphabetWord {
    /// `char`: one byte
    Char(Place),
    /// `short`: two bytes
    Short(Place),
    /// `int`: four bytes
    Int(Place),
}

/// `access TEXT;` (the guide's section 5.4)
#[derive(Drop)]
pub struct Access {
    pub start: Place,
    pub text: Word,
    pub semicolon: Place,
}

/// `variable NAME TEXT;` (the guide's section 5.5)
#[derive(Drop)]
pub struct Variable {
    pub start: Place,
    /// One of p, pe, eof, cs, top, stack, act, ts, te.
    pub name: Word,
    pub text: Word,
    pub semicolon: Place,
}

/// `write data;`, `write init;` or `write exec;`, with its options (the guide's section 5.8)
#[derive(Drop)]
pub struct Write {
    pub start: Place,
    pub what: WriteKind,
    pub options: List<WriteOption>,
    pub semicolon: Place,
}

/// Which text a `write` statement asks for, with the place of its word.
#[derive(Clone, Copy)]
pub enum WriteKind {
    Data(Place),
    Init(Place),
    Exec(Place),
}

/// An option of a `write` statement, which changes nothing, with the place of its word.
#[derive(Clone, Copy)]
pub enum WriteOption {
    NoError(Place),
    NoFinal(Place),
}

/// `action NAME CODE` (the guide's section 3.1)
#[derive(Drop)]
pub struct Action {
    pub start: Place,
    pub name: Word,
    pub code: Word,
}

/// `NAME = EXPRESSION;` or `NAME := EXPRESSION;` (the guide's sections 2.1.2 and 2.1.3)
#[derive(Drop)]
pub struct Definition {
    pub name: Word,
    pub sign: DefinitionSign,
    pub value: Union,
    pub semicolon: Place,
}

/// What a definition makes: a name for an expression, or an instantiation.
#[derive(Clone, Copy)]
pub enum DefinitionSign {
    /// `=`
    Name(Place),
    /// `:=`
    Instantiation(Place),
}

/// Operands of the loosest operators, which associate to the left (the guide's sections 2.5.1 to 2.5.4).
#[cycle(syntax)]
#[derive(Drop)]
pub struct Union {
    pub first: Concatenation,
    pub rest: List<UnionPart>,
}

/// A sign with its right operand.
#[cycle(syntax)]
#[derive(Drop)]
pub struct UnionPart {
    pub sign: UnionSign,
    pub operand: Concatenation,
}

/// The loosest operators, each with the place of its sign.
#[derive(Clone, Copy)]
pub enum UnionSign {
    /// `|`
    Union(Place),
    /// `&`
    Intersection(Place),
    /// `-`
    Difference(Place),
    /// `--`
    StrongDifference(Place),
}

/// Operands that stand one behind another, which associate to the left (the guide's sections 2.5.5 and 4.2).
#[cycle(syntax)]
#[derive(Drop)]
pub struct Concatenation {
    pub first: Embedded,
    pub rest: List<ConcatenationPart>,
}

/// A further operand of a concatenation. One without a sign does not begin with `-`.
#[cycle(syntax)]
#[derive(Drop)]
pub struct ConcatenationPart {
    /// None where the operand stands beside the one before it.
    pub sign: Option<ConcatenationSign>,
    pub operand: Embedded,
}

/// The signs of concatenation, each with its place.
#[derive(Clone, Copy)]
pub enum ConcatenationSign {
    /// `.`
    Plain(Place),
    /// `<:`
    LeftGuarded(Place),
    /// `:>`
    EntryGuarded(Place),
    /// `:>>`
    FinishGuarded(Place),
}

/// An operand with what is embedded in it, in order of appearance.
#[cycle(syntax)]
#[derive(Drop)]
pub struct Embedded {
    pub operand: Repeated,
    pub embeddings: List<Embedding>,
}

/// What is embedded in an operand.
#[derive(Drop)]
pub enum Embedding {
    /// An action or a priority in transitions (the guide's sections 3.1 and 4.1).
    Transition(TransitionSign, Label),
    /// An action in states (the guide's section 3.2).
    State(Mark, ActionUse),
    /// The place of `when`, and its condition (the guide's section 6.5).
    When(Place, ActionUse),
}

/// Which transitions, with the place of the sign.
#[derive(Clone, Copy)]
pub enum TransitionSign {
    /// `>`
    Entering(Place),
    /// `@`
    Finishing(Place),
    /// `$`
    All(Place),
    /// `%`
    Leaving(Place),
}

/// A class of states and a kind of embedding, one token.
#[derive(Clone, Copy)]
pub struct Mark {
    pub class: StateClass,
    pub kind: StateKind,
    pub place: Place,
}

/// Which states.
#[derive(Clone, Copy)]
pub enum StateClass {
    /// `>`
    Start,
    /// `<`
    NotStart,
    /// `$`
    All,
    /// `%`
    Final,
    /// `@`
    NotFinal,
    /// `<>`
    Middle,
}

/// When the action of a state is called.
#[derive(Clone, Copy)]
pub enum StateKind {
    /// `~` or `to`
    To,
    /// `*` or `from`
    From,
    /// `/` or `eof`
    Eof,
    /// `!` or `err`
    Error,
}

/// What is embedded in transitions.
#[derive(Drop)]
pub enum Label {
    Action(ActionUse),
    Priority(Priority),
}

/// An action where it is used.
#[derive(Drop)]
pub enum ActionUse {
    Name(Word),
    /// A name in parentheses.
    Group(Place, Word, Place),
    /// An anonymous action.
    Code(Word),
}

/// A priority (the guide's section 4.1).
#[derive(Drop)]
pub enum Priority {
    /// Under the name of the definition that it stands in.
    Plain(Number),
    /// Under a name of its own.
    Named(NamedPriority),
}

/// `(NAME, NUMBER)`
#[derive(Drop)]
pub struct NamedPriority {
    pub opening: Place,
    pub name: Word,
    pub comma: Place,
    pub value: Number,
    pub closing: Place,
}

/// A number, behind a `-` where there is one.
#[derive(Drop)]
pub struct Number {
    pub minus: Option<Place>,
    pub digits: Word,
}

/// An operand with its repetitions, the innermost first (the guide's sections 2.5.6 to 2.5.9).
#[cycle(syntax)]
#[derive(Drop)]
pub struct Repeated {
    pub operand: Negated,
    pub repetitions: List<Repetition>,
}

/// A repetition, with the place of its sign.
#[derive(Drop)]
pub enum Repetition {
    /// `*`
    Star(Place),
    /// `**`
    LongestStar(Place),
    /// `?`
    Optional(Place),
    /// `+`
    Plus(Place),
    Count(Count),
}

/// How often, in braces.
#[derive(Drop)]
pub struct Count {
    pub opening: Place,
    pub bounds: Bounds,
    pub closing: Place,
}

/// The bounds of a count, with the places of their commas.
#[derive(Drop)]
pub enum Bounds {
    /// `{,M}`
    AtMost(Place, Word),
    /// `{N}`
    Exactly(Word),
    /// `{N,}`
    AtLeast(Word, Place),
    /// `{N,M}`
    Between(Word, Place, Word),
}

/// An operand behind its negations, the outermost first (the guide's sections 2.5.10 and 2.5.11).
#[cycle(syntax)]
#[derive(Drop)]
pub struct Negated {
    pub negations: List<Negation>,
    pub operand: Operand,
}

/// A negation, with the place of its sign.
#[derive(Clone, Copy)]
pub enum Negation {
    /// `!`
    Language(Place),
    /// `^`
    Character(Place),
}

/// What operators are applied to (the guide's section 2.3).
#[cycle(syntax)]
#[derive(Drop)]
pub enum Operand {
    /// A literal that stands alone.
    Literal(Word),
    /// A number that stands alone.
    Number(Number),
    /// A range from one key to another, with the place of its `..`.
    Range(Key, Place, Key),
    Set(Word),
    RegularExpression(Word),
    Name(Word),
    /// An expression in parentheses.
    Group(Place, Boxed<Union>, Place),
    Scanner(Boxed<Scanner>),
}

/// An end of a range.
#[derive(Drop)]
pub enum Key {
    Number(Number),
    /// A literal of one character without the suffix `i`.
    Character(Word),
}

/// `|* .. *|`: patterns, of which there is at least one (the guide's section 6.3).
#[cycle(syntax)]
#[derive(Drop)]
pub struct Scanner {
    pub opening: Place,
    pub first: Pattern,
    pub rest: List<Pattern>,
    pub closing: Place,
}

/// A pattern of a scanner.
#[cycle(syntax)]
#[derive(Drop)]
pub struct Pattern {
    pub value: Union,
    pub action: Option<PatternAction>,
    pub semicolon: Place,
}

/// `=>` and the action of a pattern.
#[derive(Drop)]
pub struct PatternAction {
    pub arrow: Place,
    pub action: ActionUse,
}
