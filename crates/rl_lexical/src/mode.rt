// How far a piece is read that ends with a byte of its own.

/// How far a literal, a set, a regular expression or a code is read, which end with a byte of their own. A depth is the
/// number of braces of the code that are open inside its first.
#[derive(Clone, Copy, Debug, PartialEq, Eq)]
pub enum Mode {
    /// In a literal, which ends with this quote.
    Literal(u8),
    /// Behind a backslash in a literal.
    LiteralEscape(u8),
    /// In a set.
    Set,
    /// Behind a backslash in a set.
    SetEscape,
    /// In a regular expression.
    Regular,
    /// Behind a backslash in a regular expression.
    RegularEscape,
    /// In a set of a regular expression.
    RegularSet,
    /// Behind a backslash in a set of a regular expression.
    RegularSetEscape,
    /// In the code of an action.
    Code(u64),
    /// Behind a `/` in code.
    CodeSlash(u64),
    /// In a string or character literal of the code, which ends with this quote.
    CodeQuote(u8, u64),
    /// Behind a backslash in a string or character literal of the code.
    CodeEscape(u8, u64),
    /// In a comment of the code that ends with its line.
    LineComment(u64),
    /// In a comment of the code that ends with `*/`.
    BlockComment(u64),
    /// Behind a `*` in such a comment.
    BlockStar(u64),
    /// The piece is read, and an `i` may follow that belongs to it.
    Suffixable,
    /// The piece is read.
    Complete,
    /// More is read than the piece has.
    Past,
}
