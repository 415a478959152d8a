// The arrays of a printed machine, and their names.
use rl_types::{List, Name};

/// The arrays of a data section (this profile). An element's index counts from 0: a place, a state, a use of a cell, a
/// cell, an entry of a cell, an action, a statement, a condition or an entry's number, as each array says. In version 1
/// each key has a cell of its own; in version 2 keys share cells, and `cell_uses` says which cell each key has.
#[derive(Debug, Drop)]
pub struct Arrays {
    /// 1 or 2.
    pub version: i64,
    /// The machine's name.
    pub name: Name,
    /// The start entry's state.
    pub start: i64,
    /// The least final state.
    pub first_final: i64,
    /// 0 for `char`, 1 `unsigned char`, 2 `short`, 3 `unsigned short`, 4 `int`, 5 `unsigned int`.
    pub alphabet: i64,
    /// All lists of actions, each as its length and its members; place 0 holds 0, the empty list. A list's number is
    /// its place.
    pub actions: List<i64>,
    /// Per state, the place of its first key in `trans_keys`.
    pub key_offsets: List<i64>,
    /// Per state its single keys ascending, then its ranges ascending, each as low and high; one closing 0.
    pub trans_keys: List<i64>,
    /// Per state, the number of its single keys.
    pub single_lengths: List<i64>,
    /// Per state, the number of its ranges.
    pub range_lengths: List<i64>,
    /// Per state, the place of its first cell; in version 2 of the first use of one, in `cell_uses`. They follow the
    /// keys' order: a single key and a range have one each.
    pub cell_offsets: List<i64>,
    /// In version 2, per use the number of its cell, from 0; one closing 0. Empty in version 1.
    pub cell_uses: List<i64>,
    /// Per cell, the conditions that are asked: condition i as 2 to the i - 1; one closing 0.
    pub cell_asks: List<i64>,
    /// Per cell, the place of its first entry; one closing 0.
    pub cell_entries: List<i64>,
    /// Per entry, the target; 0 where there is no step; one closing 0.
    pub trans_targs: List<i64>,
    /// Per entry, the number of its list; one closing 0.
    pub trans_lists: List<i64>,
    /// Per state, the number of its from-state list.
    pub from_lists: List<i64>,
    /// Per state, the number of its to-state list.
    pub to_lists: List<i64>,
    /// Per state, the number of its end-of-file list.
    pub eof_lists: List<i64>,
    /// Per state, the number of its error list.
    pub error_lists: List<i64>,
    /// Per state, the number of the token's list.
    pub accept_lists: List<i64>,
    /// Per state: 0 plain, 1 a scanner's start, 2 inside a scanner and not final, 3 inside and final, 4 final with no
    /// step.
    pub state_kinds: List<i64>,
    /// Per state, the scanner's start for kinds 1 to 4, else 0.
    pub homes: List<i64>,
    /// Per action, from 1, its name; element 0 is empty.
    pub action_names: List<Name>,
    /// Per action, the place of its first statement; element 0 is 0.
    pub stmt_firsts: List<i64>,
    /// Per action, the number of its statements; element 0 is 0.
    pub stmt_counts: List<i64>,
    /// Per statement, from 1: 1 hold, 2 exec, 3 goto, 4 call, 5 ret, 6 next, 7 break; element 0 is 0.
    pub stmt_kinds: List<i64>,
    /// Per statement, 1 at the outer level, else 0; element 0 is 0.
    pub stmt_outer: List<i64>,
    /// Per statement, the entry's number for a goto, call or next, the offset for an exec, else 0; element 0 is 0.
    pub stmt_args: List<i64>,
    /// Per statement, for an exec what its goal counts from: 0 unread, 1 p, 2 ts, 3 te; else 0; element 0 is 0.
    pub stmt_bases: List<i64>,
    /// Per condition, from 1, its name; element 0 is empty.
    pub cond_names: List<Name>,
    /// Per entry number, from 1, its name; element 0 is empty.
    pub entry_names: List<Name>,
    /// Per entry number, its state; element 0 is 0.
    pub entry_states: List<i64>,
}

/// The name of an array.
#[derive(Clone, Copy, Debug, PartialEq, Eq)]
pub enum ArrayName {
    Actions,
    KeyOffsets,
    TransKeys,
    SingleLengths,
    RangeLengths,
    CellOffsets,
    CellUses,
    CellAsks,
    CellEntries,
    TransTargs,
    TransLists,
    FromLists,
    ToLists,
    EofLists,
    ErrorLists,
    AcceptLists,
    StateKinds,
    Homes,
    ActionNames,
    StmtFirsts,
    StmtCounts,
    StmtKinds,
    StmtOuter,
    StmtArgs,
    StmtBases,
    CondNames,
    EntryNames,
    EntryStates,
}

/// The arrays in the order in which they are printed and checked.
pub const ORDER: [ArrayName; 28] = [
    ArrayName::Actions,
    ArrayName::KeyOffsets,
    ArrayName::TransKeys,
    ArrayName::SingleLengths,
    ArrayName::RangeLengths,
    ArrayName::CellOffsets,
    ArrayName::CellUses,
    ArrayName::CellAsks,
    ArrayName::CellEntries,
    ArrayName::TransTargs,
    ArrayName::TransLists,
    ArrayName::FromLists,
    ArrayName::ToLists,
    ArrayName::EofLists,
    ArrayName::ErrorLists,
    ArrayName::AcceptLists,
    ArrayName::StateKinds,
    ArrayName::Homes,
    ArrayName::ActionNames,
    ArrayName::StmtFirsts,
    ArrayName::StmtCounts,
    ArrayName::StmtKinds,
    ArrayName::StmtOuter,
    ArrayName::StmtArgs,
    ArrayName::StmtBases,
    ArrayName::CondNames,
    ArrayName::EntryNames,
    ArrayName::EntryStates,
];

/// The first element that is not right: its array, and its index from 0. Where an array is too short, the index is its
/// length; where it is too long, the index is that of the first element too many.
#[derive(Clone, Copy, Debug, PartialEq, Eq)]
pub struct BadValue {
    pub array: ArrayName,
    pub index: u64,
}
