//! The states of the entries, and the lines before the arrays.
ghost use Rattle.std.specs.Prelude.{◌≡◌, ◌<◌, ◌↔◌, IsTrue, Some, IfSome, pos, length, codes};
ghost use Rattle.rl_arrays.specs.Words.{natural, IfAt};
ghost use Rattle.rl_arrays.specs.Rules.{start_entry, HeadRight, EntrySays};
ghost use Rattle.rl_arrays.specs.Valid.{FirstWrong, Right};

use crate::names::place_of_main;
use crate::numbers::{count_of, is_at_most, is_between, is_state, may_have_kind};
use rl_arrays::{ArrayName, Arrays, is_name};

/// Whether the start is the state of the start entry.
fn is_start(a: &Arrays) -> bool
    ensures { IsTrue result ↔ IfAt a.now.entry_states (start_entry a.now) (λ state. a.now.start ≡ state) }
{
    match a.entry_states.get(start_entry_of(a)) {
        Some(state) => a.start == *state,
        None => true,
    }
}

/// The entry `main`, or the first one.
pub(crate) fn start_entry_of(a: &Arrays) -> usize
    ensures { result ≡ start_entry a.now }
{
    place_of_main(a.entry_names.as_slice()).unwrap_or(1)
}

/// Whether the lines before the arrays are right.
fn is_head(a: &Arrays) -> bool
    ensures { IsTrue result ↔ HeadRight a.now }
{
    if !is_name(a.name.bytes()) {
        return false;
    }
    if !is_start(a) {
        return false;
    }
    if !is_between(0, 5, a.alphabet) {
        return false;
    }
    a.first_final >= 1 && is_at_most(a.first_final, a.key_offsets.len())
}

fn is_entry_state(a: &Arrays, e: usize, state: i64) -> bool
    ensures { IsTrue result ↔ EntrySays a.now e state }
{
    if e == 0 {
        return state == 0 && is_head(a);
    }
    if state == 0 || !is_state(a, state) {
        return false;
    }
    may_have_kind(a, count_of(state), 0, 1)
}

/// Whether an entry's state is there and right.
fn is_right_entry_state(a: &Arrays, e: usize) -> bool
    ensures { IsTrue result ↔ Right a.now ArrayName.EntryStates e }
{
    match a.entry_states.get(e) {
        Some(state) => e < a.entry_names.len() && is_entry_state(a, e, *state),
        None => false,
    }
}

/// The first wrong state of an entry.
pub(crate) fn in_entry_states(a: &Arrays) -> Option<usize>
    ensures { FirstWrong a.now ArrayName.EntryStates result }
{
    for e in 0..a.entry_states.len() {
        if !is_right_entry_state(a, e) {
            return Some(e);
        }
    }
    if a.entry_states.len() < a.entry_names.len() {
        Some(a.entry_states.len())
    } else {
        None
    }
}
