//! The arrays by state.
ghost use Rattle.std.specs.Prelude.{◌≡◌, ◌+◌, pos, map, length, IfOk};
ghost use Rattle.rl_layout.specs.Told.{told};
ghost use Rattle.rl_layout.specs.Runs as runs;
ghost use Rattle.rl_layout.specs.Cells.{key_count, cell_count};
ghost use Rattle.rl_layout.specs.Books.{place_in};
ghost use Rattle.rl_layout.specs.StateArrays.{value_of};

use crate::books::place_in;
use crate::cells::number;
use crate::lists::push;
use crate::runs::laid_of;
use rl_minimal::MinState;
use rl_types::{ActionId, List, Memory};
use std::alloc::Global;

/// Which array by state.
#[derive(Clone, Copy, Debug)]
pub(crate) enum StateArray {
    From,
    To,
    Eof,
    Error,
    Token,
    Kind,
    Home,
}

// The number of a list.
fn list_number(lists: &[&[ActionId]], list: &[ActionId]) -> Result<i64, Memory>
    ensures { IfOk result (λ z. z ≡ pos (place_in (told lists.now) list.now)) }
{
    let place = place_in(lists, list)?;
    number(place)
}

// What an array has for a state.
fn value(which: StateArray, lists: &[&[ActionId]], state: &MinState) -> Result<i64, Memory>
    ensures { IfOk result (λ z. z ≡ pos (value_of which (told lists.now) state.now)) }
{
    match which {
        StateArray::From => list_number(lists, state.from.as_slice()),
        StateArray::To => list_number(lists, state.to.as_slice()),
        StateArray::Eof => list_number(lists, state.eof.as_slice()),
        StateArray::Error => list_number(lists, state.error.as_slice()),
        StateArray::Token => list_number(lists, state.token.as_slice()),
        StateArray::Kind => Ok(i64::from(state.kind)),
        StateArray::Home => Ok(i64::from(state.home)),
    }
}

/// An array by state.
pub(crate) fn by_state(
    alloc: Global,
    which: StateArray,
    lists: &[&[ActionId]],
    states: &[MinState],
) -> Result<List<i64>, Memory>
    ensures { IfOk result (λ v. v ≡ map (λ s. pos (value_of which (told lists.now) s)) states.now) }
{
    let mut values = Vec::new(alloc);
    for state in states {
        push(&mut values, value(which, lists, state)?)?;
    }
    Ok(List::from_vec(values))
}

/// The numbers of single keys.
pub(crate) fn single_lengths(alloc: Global, states: &[MinState]) -> Result<List<i64>, Memory>
    ensures { IfOk result (λ v. v ≡ map (λ s. pos (length (runs.laid_of s).singles)) states.now) }
{
    let mut lengths = Vec::new(alloc);
    for state in states {
        let laid = laid_of(alloc, state)?;
        push(&mut lengths, number(laid.singles.len())?)?;
    }
    Ok(List::from_vec(lengths))
}

/// The numbers of ranges.
pub(crate) fn range_lengths(alloc: Global, states: &[MinState]) -> Result<List<i64>, Memory>
    ensures { IfOk result (λ v. v ≡ map (λ s. pos (length (runs.laid_of s).ranges)) states.now) }
{
    let mut lengths = Vec::new(alloc);
    for state in states {
        let laid = laid_of(alloc, state)?;
        push(&mut lengths, number(laid.ranges.len())?)?;
    }
    Ok(List::from_vec(lengths))
}

// The sum.
fn sum(left: usize, right: usize) -> Result<usize, Memory>
    ensures { IfOk result (λ n. n ≡ left + right) }
{
    match left.checked_add(right) {
        Some(sum) => Ok(sum),
        None => Err(Memory),
    }
}

/// How many cells each state has.
pub(crate) fn cell_counts(alloc: Global, states: &[MinState]) -> Result<Vec<usize>, Memory>
    ensures { IfOk result (λ v. v.items ≡ map cell_count states.now) }
{
    let mut counts = Vec::new(alloc);
    for state in states {
        let laid = laid_of(alloc, state)?;
        push(&mut counts, sum(laid.singles.len(), laid.ranges.len())?)?;
    }
    Ok(counts)
}

/// How many places the keys of each state take.
pub(crate) fn key_counts(alloc: Global, states: &[MinState]) -> Result<Vec<usize>, Memory>
    ensures { IfOk result (λ v. v.items ≡ map key_count states.now) }
{
    let mut counts = Vec::new(alloc);
    for state in states {
        let laid = laid_of(alloc, state)?;
        let ends = sum(laid.ranges.len(), laid.ranges.len())?;
        push(&mut counts, sum(laid.singles.len(), ends)?)?;
    }
    Ok(counts)
}
