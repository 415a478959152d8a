// The faults of a source, and the limits of this profile.
use crate::Place;

/// What is wrong with a source, by the numbers that are printed.
#[derive(Clone, Copy, Debug, PartialEq, Eq)]
pub enum FaultKind {
    /// Bad character: a byte begins no token.
    F1,
    /// Unclosed: a literal, set, regular expression, action, text or block has no end.
    F2,
    /// Syntax: a token that the grammar does not have there.
    F3,
    /// No machine: a statement stands before any `machine`, or the machine that is named is absent.
    F4,
    /// Unknown name: an expression or an action is not defined earlier.
    F5,
    /// Twice: a name is defined twice, or `write data` stands twice for a machine.
    F6,
    /// Number: an integer literal does not fit 64 bits with a sign.
    F7,
    /// Key range: a key is outside the alphabet.
    F8,
    /// Range ends: the lower end of a range is above the upper.
    F9,
    /// Counts: in `{n,m}` n is above m.
    F10,
    /// Scanner place: a scanner is not the whole of an instantiation.
    F11,
    /// Zero token: a pattern of a scanner matches the empty word.
    F12,
    /// Statement place: a control statement or a value stands in action code where it is left out.
    F13,
    /// Mark in scanner: an end-of-file or error embedding in a pattern.
    F14,
    /// Priority cycle: all candidates of a node are beaten.
    F15,
    /// No entry: a control statement or an `fentry` names no instantiation.
    F16,
    /// Include loop: a file includes itself, directly or through others.
    F17,
    /// No instance: a machine that is written or run has no instantiation.
    F18,
    /// Marker: a line begins with the marker of a data section.
    F19,
}

/// A fault with its place.
#[derive(Clone, Copy, Debug, PartialEq, Eq)]
pub struct Fault {
    pub kind: FaultKind,
    pub place: Place,
}

/// Which limit is passed, by the numbers that are printed.
#[derive(Clone, Copy, Debug, PartialEq, Eq)]
pub enum LimitKind {
    /// 4,194,304 bytes of one source file.
    L1,
    /// Includes 16 deep.
    L2,
    /// 128 open parentheses.
    L3,
    /// 100,000 nodes of one entry's tree.
    L4,
    /// A tree 2,000 deep.
    L5,
    /// 32,767 reachable configurations of a node, before its pruning.
    L6,
    /// 8 conditions of a machine.
    L7,
    /// 4,194,304 cells of a node: configurations times key classes times 2 to the number of conditions.
    L8,
    /// 65,535 names of a machine.
    L9,
    /// 4 statements of an action at the outer level up to the first transfer or break.
    L10,
    /// 256 states under `--certify`.
    L11,
    /// 1,099,511,627,776 bytes of `--input`.
    L12,
}

/// A limit that is passed, with the place.
#[derive(Clone, Copy, Debug, PartialEq, Eq)]
pub struct Limit {
    pub kind: LimitKind,
    pub place: Place,
}
