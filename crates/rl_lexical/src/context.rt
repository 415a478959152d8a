// What the tokens before a place say of the token there.

/// What the tokens before a place say of the token there.
#[derive(Clone, Copy, Debug, PartialEq, Eq)]
pub struct Context {
    /// Whether the place is behind a `|*`, and before the next `*|`.
    pub in_scanner: bool,
    pub expected: Expected,
}

/// Which tokens may stand at a place that do not stand elsewhere.
#[derive(Clone, Copy, Debug, PartialEq, Eq)]
pub enum Expected {
    /// None of them.
    Any,
    /// Behind `action`: a name, behind which code may stand.
    ActionName,
    /// Behind `action` and its name, `=>`, `when` and the sign of an embedding: a `{` begins code.
    Code,
    /// Behind `variable`: one of its names, behind which its text stands.
    VariableName,
    /// Behind `access`, and behind `variable` and its name: a text.
    Text,
}

/// How a block stands in its file.
#[derive(Clone, Copy, Debug, PartialEq, Eq)]
pub enum Shape {
    /// From `%%{` to `}%%`.
    Braced,
    /// From `%%` to the end of its line.
    Line,
}

/// What the part of a set or of a regular expression that is read says of the rest. A set that stands alone begins at
/// `SetStart`, and is read where it comes to `Repeated`.
#[derive(Clone, Copy, Debug, PartialEq, Eq)]
pub enum Form {
    /// An item of a regular expression may begin.
    Item,
    /// Behind an item, which may be followed by `*`.
    Repeated,
    /// Behind the `[` of a set, which may be followed by `^`.
    SetStart,
    /// A character or a range of a set may begin.
    SetItem,
    /// Behind a character of a set, which may be the lower end of a range.
    SetCharacter,
    /// Behind the `-` of a range.
    SetRange,
    /// Behind the closing `/`, which may be followed by `i`.
    Closed,
    /// Behind the `i`.
    Suffixed,
    /// What is read is no set and no regular expression, whatever follows.
    Wrong,
}
