//! Names of machines, entries, actions and conditions.
ghost use Rattle.std.specs.Prelude.{◌≡◌, ◌<◌, ◌≤◌, ◌↔◌, IsTrue, Some, IfSome, ◌==◌, ◌&&◌, ◌||◌, ◌≢◌, slice_get, length, codes, Bool, ℕ, map};
ghost use Rattle.std.specs.List.{list_all, list_any, slice_split, position};
ghost use Rattle.std.specs.Str.{bytes_eq};
ghost use Rattle.rl_arrays.specs.Words.{IfAt};
ghost use Rattle.rl_arrays.specs.Names as form;
ghost use Rattle.rl_arrays.specs.Rules.{NameSays};
ghost use Rattle.rl_arrays.specs.Valid.{FirstWrong, Right};

use crate::offsets::MOST;
use rl_arrays::{ArrayName, Arrays, is_action_name, is_name};
use rl_types::{List, Name};

/// Where the name `main` stands first.
pub(crate) fn place_of_main(names: &[Name]) -> Option<usize>
    ensures { result ≡ position (bytes_eq (codes "main")) names.now }
{
    names
        .iter()
        .position(|name| "main".as_bytes() == name.bytes())
}

/// Whether these bytes stand at an index.
pub(crate) fn is_at(names: &List<Name>, k: usize, bytes: &[u8]) -> bool
    ensures { IsTrue result ↔ (slice_get names.now k ≡ Some bytes.now) }
{
    match names.get(k) {
        Some(name) => name.bytes() == bytes,
        None => false,
    }
}

/// Whether no name before it is the same.
fn is_new(names: &List<Name>, i: usize, name: &[u8]) -> bool
    ensures { IsTrue result ↔ ((k : ℕ) → k < i → slice_get names.now k ≢ Some name.now) }
{
    for k in 0..i {
        if is_at(names, k, name) {
            return false;
        }
    }
    true
}

fn is_action(names: &List<Name>, i: usize, name: &[u8]) -> bool
    ensures { IsTrue result ↔ NameSays form.is_action_name names.now i name.now }
{
    if i == 0 {
        return name.is_empty();
    }
    is_action_name(name) && is_new(names, i, name)
}

/// The first wrong name of an action.
pub(crate) fn in_action_names(a: &Arrays) -> Option<usize>
    ensures { FirstWrong a.now ArrayName.ActionNames result }
{
    let names = &a.action_names;
    for (i, name) in names.as_slice().iter().enumerate() {
        if i >= MOST || !is_action(names, i, name.bytes()) {
            return Some(i);
        }
    }
    if names.len() < 1 {
        Some(names.len())
    } else {
        None
    }
}

fn is_cond(names: &List<Name>, i: usize, name: &[u8]) -> bool
    ensures { IsTrue result ↔ NameSays form.is_action_name names.now i name.now }
{
    if i == 0 {
        return name.is_empty();
    }
    is_action_name(name) && is_new(names, i, name)
}

/// The first wrong name of a condition.
pub(crate) fn in_cond_names(a: &Arrays) -> Option<usize>
    ensures { FirstWrong a.now ArrayName.CondNames result }
{
    let names = &a.cond_names;
    for (i, name) in names.as_slice().iter().enumerate() {
        if i >= 9 || !is_cond(names, i, name.bytes()) {
            return Some(i);
        }
    }
    if names.len() < 1 {
        Some(names.len())
    } else {
        None
    }
}

fn is_entry(names: &List<Name>, i: usize, name: &[u8]) -> bool
    ensures { IsTrue result ↔ NameSays form.is_name names.now i name.now }
{
    if i == 0 {
        return name.is_empty();
    }
    is_name(name) && is_new(names, i, name)
}

/// The first wrong name of an entry.
pub(crate) fn in_entry_names(a: &Arrays) -> Option<usize>
    ensures { FirstWrong a.now ArrayName.EntryNames result }
{
    let names = &a.entry_names;
    for (i, name) in names.as_slice().iter().enumerate() {
        if i >= MOST || !is_entry(names, i, name.bytes()) {
            return Some(i);
        }
    }
    if names.len() < 2 {
        Some(names.len())
    } else {
        None
    }
}
