// Tokens and their kinds.
ghost use Rattle.std.specs.Prelude.{◌≡◌};
ghost use Rattle.rl_grammar.specs.Lexeme.{same_kind};

use rl_types::{List, Place};

/// What kind of token: a terminal of the grammar, or a word that the grammar has no place for.
#[derive(Clone, Copy, Debug, PartialEq, Eq)]
pub enum TokenKind {
    /// A word that may be a name, those that the grammar quotes (`char`, `data`, ..) and those of `variable`
    /// (`p`, `cs`, ..) included.
    Name,
    /// A number, decimal or `0x` and hexadecimal.
    Integer,
    /// A literal in single or double quotes, with its suffix `i` where it has one.
    Literal,
    /// A set, `[..]`.
    Set,
    /// A regular expression, `/../`, with its suffix `i` where it has one.
    RegularExpression,
    /// An action's code, from its `{` to the matching `}`.
    Code,
    /// The text of `access` or `variable`.
    Text,
    /// A class of states and a kind of state embedding without a blank between them, as `>~` or `$eof`.
    Mark,
    /// The word `machine`.
    Machine,
    /// The word `include`.
    Include,
    /// The word `alphtype`.
    Alphtype,
    /// The word `access`.
    Access,
    /// The word `variable`.
    Variable,
    /// The word `write`.
    Write,
    /// The word `action`.
    Action,
    /// The word `when`.
    When,
    /// A word that is no name and has no place in the grammar of this profile: `inwhen`, `outwhen`, `import`, `export`,
    /// `exports`, `getkey`, `prepush`, `postpop`.
    Reserved,
    /// `;`
    Semicolon,
    /// `=`
    Equals,
    /// `:=`
    ColonEquals,
    /// `|*`
    OpenScanner,
    /// `*|`
    CloseScanner,
    /// `=>`
    Arrow,
    /// `|`
    Bar,
    /// `&`
    Ampersand,
    /// `-`
    Minus,
    /// `--`
    DoubleMinus,
    /// `.`
    Dot,
    /// `<:`
    LeftGuard,
    /// `:>`
    EntryGuard,
    /// `:>>`
    FinishGuard,
    /// `*`
    Star,
    /// `**`
    DoubleStar,
    /// `?`
    Question,
    /// `+`
    Plus,
    /// The `{` of a count.
    OpenBrace,
    /// `}`
    CloseBrace,
    /// `,`
    Comma,
    /// `!`
    Exclamation,
    /// `^`
    Caret,
    /// `..`
    DotDot,
    /// `(`
    OpenParenthesis,
    /// `)`
    CloseParenthesis,
    /// `>`
    Greater,
    /// `@`
    At,
    /// `$`
    Dollar,
    /// `%`
    Percent,
    /// The end of the block: its `}%%`, or the newline or end of file that ends a one-line block.
    End,
}

impl TokenKind {
    /// Whether it is the other kind.
    #[tactic(auto, unfolding(crate::specs::Lexeme::same_kind))]
    pub fn is(self, other: TokenKind) -> bool
        ensures { result ≡ same_kind self other }
    {
        self == other
    }
}

/// A token of a block.
#[derive(Debug, Drop)]
pub struct Token {
    pub kind: TokenKind,
    /// Its bytes in the file.
    pub text: List<u8>,
    /// The offset of its first byte in the file, from 0.
    pub from: u64,
    /// The place of its first byte.
    pub place: Place,
}
