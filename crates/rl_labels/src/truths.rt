// The conditions that hold at a character.

/// A set of conditions: bit i - 1 stands for condition i, of 1 to 8 (this profile).
#[derive(Clone, Copy, Debug, PartialEq, Eq, PartialOrd, Ord)]
pub struct Truths(pub u8);
