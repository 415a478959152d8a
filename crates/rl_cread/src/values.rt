//! The tables of a section as it stands, or its first element that is not right.
ghost use Rattle.std.specs.Prelude.{◌≡◌, ◌↔◌, ◌+◌, ◌-◌, ℕ, ℤ, IsTrue, IsSomeAnd, MatchResult, slice_get, length, ◌<◌, ◌^◌};
ghost use Rattle.rl_arrays.specs.Words.{IfAt};
ghost use Rattle.rl_arrays.specs.Valid.{IsVersioned};
ghost use Rattle.rl_cread.specs.Sections.{AreEntries};
ghost use Rattle.rl_cread.specs.Values.{IsEntryAt, IsSound, IsUnsound};

use crate::fault::TableFault;
use crate::raw::Raw;
use crate::texts::is_same;
use rl_arrays::{ArrayName, BadValue};
use rl_tables::Tables;
use rl_types::{List, Name};

/// Whether an element is missing, or is this number.
fn is_state(states: &List<i64>, i: usize, number: i64) -> bool
    ensures { IsTrue result ↔ IfAt states.now i (λ state. number ≡ state) }
{
    match states.get(i) {
        Some(state) => number == *state,
        None => true,
    }
}

/// Whether an element is there, and is this name.
fn is_named(names: &List<Name>, i: usize, word: &Name) -> bool
    ensures { IsTrue result ↔ IsSomeAnd (slice_get names.now i) (λ name. word.now ≡ name) }
{
    match names.get(i) {
        Some(name) => is_same(word.bytes(), name.bytes()),
        None => false,
    }
}

/// Whether an entry line says what the arrays say of that entry.
fn is_entry_at(
    entries: &List<(Name, i64)>,
    names: &List<Name>,
    states: &List<i64>,
    i: usize,
) -> bool
    requires { i + 1 < 2 ^ 64 }
    ensures { IsTrue result ↔ IsEntryAt entries.now names.now states.now i }
{
    match entries.get(i) {
        Some(entry) => is_named(names, i + 1, &entry.0) && is_state(states, i + 1, entry.1),
        None => false,
    }
}

/// Whether the entry lines say what the arrays say of entries.
fn agree(raw: &Raw) -> bool
    ensures { IsTrue result ↔ AreEntries raw.now.arrays raw.now.entries }
{
    let names = &raw.arrays.entry_names;
    let states = &raw.arrays.entry_states;
    if raw.entries.len() != names.len().saturating_sub(1) {
        return false;
    }
    for i in 0..raw.entries.len() {
        if !is_entry_at(&raw.entries, names, states, i) {
            return false;
        }
    }
    true
}

/// The element at which entry lines that disagree with the arrays are told.
fn disagreement() -> TableFault
    ensures { result ≡ TableFault.BadValue (record { array = ArrayName.EntryStates; index = 0 }) }
{
    TableFault::BadValue(BadValue {
        array: ArrayName::EntryStates,
        index: 0,
    })
}

/// Whether the element is of the last array.
fn is_last_array(array: ArrayName) -> bool
    ensures { IsTrue result ↔ (array ≡ ArrayName.EntryStates) }
{
    array == ArrayName::EntryStates
}

/// The tables of a section, or its first element that is not right. It takes no memory.
pub(crate) fn tables_of(raw: Raw) -> Result<Tables, TableFault>
    requires { IsVersioned raw.arrays }
    ensures { MatchResult result (IsSound raw) (IsUnsound raw) }
{
    let agree = agree(&raw);
    let Raw { arrays, entries: _ } = raw;
    match Tables::new(arrays) {
        Ok(tables) => {
            if agree {
                Ok(tables)
            } else {
                Err(disagreement())
            }
        }
        Err(bad) => {
            if agree || !is_last_array(bad.array) {
                Err(TableFault::BadValue(bad))
            } else {
                Err(disagreement())
            }
        }
    }
}
