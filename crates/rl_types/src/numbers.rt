// Numbers and places.

/// A key of an alphabet: what a machine sees of one character of the input (the guide's section 3.2).
#[derive(Clone, Copy, Debug, PartialEq, Eq, PartialOrd, Ord)]
pub struct Key(pub i64);

/// The number of an action, from 1.
#[derive(Clone, Copy, Debug, PartialEq, Eq, PartialOrd, Ord)]
pub struct ActionId(pub u32);

/// The number of an entry, from 1 in text order.
#[derive(Clone, Copy, Debug, PartialEq, Eq, PartialOrd, Ord)]
pub struct EntryId(pub u32);

/// The number of a condition, 1 to 8 in order of first use (this profile).
#[derive(Clone, Copy, Debug, PartialEq, Eq, PartialOrd, Ord)]
pub struct CondId(pub u8);

/// What a machine steps on: a key, and the conditions that hold at that character. Bit i - 1 of `truths` stands for
/// condition i.
#[derive(Clone, Copy, Debug, PartialEq, Eq, PartialOrd, Ord)]
pub struct Letter {
    pub key: i64,
    pub truths: u8,
}

/// A place in a source: the file's number, from 0 in order of first reading; the line and the column, from 1, the
/// column in bytes.
#[derive(Clone, Copy, Debug, PartialEq, Eq, PartialOrd, Ord)]
pub struct Place {
    pub file: u64,
    pub line: u32,
    pub col: u32,
}

/// Want of memory: the one answer that no rule decides.
#[derive(Clone, Copy, Debug, PartialEq, Eq)]
pub struct Memory;
