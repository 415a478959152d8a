//! The cells of the states, their entries, and where they stand in arrays.
ghost use Rattle.std.specs.Prelude.{◌≡◌, ◌<◌, ◌≤◌, ◌+◌, ◌*◌, ◌^◌, ◌∷◌, ◌++◌, [], ℤ, pos, not, ◌==◌, bit_and, length, map, IfOk, count_ones, if◌then◌else◌};
ghost use Rattle.std.specs.List.{filter, find, flat_map, range_with_len};
ghost use Rattle.std.specs.Option.{option_copied};
ghost use Rattle.rl_arrays.specs.TableMachine as machine;
ghost use Rattle.rl_layout.specs.Cells.{ordered_of, keys_of, key_count, cell_count, asks_of, entry_count, edge_at, steps_of_run, steps_of, offsets};

use crate::lists::push;
use crate::runs::{Run, edges_of, laid_of};
use rl_minimal::{MinEdge, MinState};
use rl_types::{List, Memory};
use std::alloc::Global;

// A place as an element of an array.
pub(crate) fn number(n: usize) -> Result<i64, Memory>
    ensures { IfOk result (λ z. z ≡ pos n) }
{
    match i64::try_from(n) {
        Ok(z) => Ok(z),
        Err(_) => Err(Memory),
    }
}

// Puts runs at the end.
fn push_runs(runs: &mut Vec<Run>, more: &[Run]) -> Result<(), Memory>
    ensures { IfOk result (λ _. runs.new.items ≡ runs.old.items ++ more.now) }
{
    match runs.extend_from_slice(more) {
        Ok(()) => Ok(()),
        Err(_) => Err(Memory),
    }
}

/// The runs of a state in the order of its cells.
pub(crate) fn ordered_of(alloc: Global, state: &MinState) -> Result<Vec<Run>, Memory>
    ensures { IfOk result (λ v. v.items ≡ ordered_of state.now) }
{
    let laid = laid_of(alloc, state)?;
    let mut runs = Vec::new(alloc);
    push_runs(&mut runs, laid.singles.as_slice())?;
    push_runs(&mut runs, laid.ranges.as_slice())?;
    Ok(runs)
}

// Puts the first keys of runs at the end.
fn push_lows(keys: &mut Vec<i64>, runs: &[Run]) -> Result<(), Memory>
    ensures { IfOk result (λ _. keys.new.items ≡ keys.old.items ++ map (λ r. r.lo) runs.now) }
{
    for run in runs {
        push(keys, run.lo)?;
    }
    Ok(())
}

// Puts the ends of runs at the end.
fn push_ends(keys: &mut Vec<i64>, runs: &[Run]) -> Result<(), Memory>
    ensures { IfOk result (λ _. keys.new.items ≡ keys.old.items ++ flat_map (λ r. r.lo ∷ r.hi ∷ []) runs.now) }
{
    for run in runs {
        push(keys, run.lo)?;
        push(keys, run.hi)?;
    }
    Ok(())
}

// Puts the keys of a state at the end.
fn push_keys(alloc: Global, keys: &mut Vec<i64>, state: &MinState) -> Result<(), Memory>
    ensures { IfOk result (λ _. keys.new.items ≡ keys.old.items ++ keys_of state.now) }
{
    let laid = laid_of(alloc, state)?;
    push_lows(keys, laid.singles.as_slice())?;
    push_ends(keys, laid.ranges.as_slice())?;
    Ok(())
}

/// The keys of all states, and the closing element.
pub(crate) fn all_keys(alloc: Global, states: &[MinState]) -> Result<List<i64>, Memory>
    ensures { IfOk result (λ v. v ≡ flat_map keys_of states.now ++ pos 0 ∷ []) }
{
    let mut keys = Vec::new(alloc);
    for state in states {
        push_keys(alloc, &mut keys, state)?;
    }
    push(&mut keys, 0)?;
    Ok(List::from_vec(keys))
}

/// Puts at the end where things begin that take so many places one after another, from a place on.
pub(crate) fn push_offsets(
    places: &mut Vec<i64>,
    from: usize,
    counts: &[usize],
) -> Result<(), Memory>
    ensures { IfOk result (λ _. places.new.items ≡ places.old.items ++ offsets from counts.now) }
{
    let mut place = from;
    for count in counts {
        push(places, number(place)?)?;
        place = match place.checked_add(*count) {
            Some(next) => next,
            None => return Err(Memory),
        };
    }
    Ok(())
}

/// Where things begin that take so many places one after another, from 0.
pub(crate) fn offsets(alloc: Global, counts: &[usize]) -> Result<Vec<i64>, Memory>
    ensures { IfOk result (λ v. v.items ≡ offsets 0 counts.now) }
{
    let mut places = Vec::new(alloc);
    push_offsets(&mut places, 0, counts)?;
    Ok(places)
}

/// The conditions that are asked at a run.
pub(crate) fn asks_of(edges: &[MinEdge], run: &Run) -> u8
    ensures { result ≡ asks_of edges.now run.now }
{
    match edges_of(edges, run) {
        [] => 0,
        [e, ..] => e.asks.0,
    }
}

/// The conditions, each as 2 to its number less 1.
const CONDITIONS: [u8; 8] = [1, 2, 4, 8, 16, 32, 64, 128];

// 1 where the condition holds, else 0.
fn bit_of(hold: u8, condition: u8) -> usize
    ensures value { result ≡ (if bit_and hold condition == 0 then 0 else 1) }
    ensures small { result ≤ 1 }
{
    if hold & condition == 0 { 0 } else { 1 }
}

// The number of the entry in which exactly those of the asked conditions hold, of these conditions in order.
fn number_among(conditions: &[u8], asks: u8, hold: u8) -> usize
    requires { length conditions.now ≤ 8 }
    ensures value { result ≡ machine.entry_number (filter (λ bit. not (bit_and asks bit == 0)) conditions.now) hold }
    ensures small { result < 2 ^ length conditions.now }
{
    match conditions {
        [] => 0,
        [condition, rest @ ..] => {
            let behind = number_among(rest, asks, hold);
            if asks & *condition == 0 {
                behind
            } else {
                bit_of(hold, *condition) + 2 * behind
            }
        }
    }
}

// The number of the entry of a cell in which exactly those of the asked conditions hold.
fn entry_number(asks: u8, hold: u8) -> usize
    ensures { result ≡ machine.entry_number (machine.asked_bits asks) hold }
{
    let conditions = CONDITIONS;
    number_among(&conditions, asks, hold)
}

/// The edge whose truths have the number of an entry.
pub(crate) fn edge_at(asks: u8, j: usize, edges: &[MinEdge]) -> Option<&MinEdge>
    ensures { option_copied result ≡ edge_at asks j edges.now }
{
    edges.iter().find(|e| entry_number(asks, e.truths.0) == j)
}

/// How many entries the cell of a run has.
pub(crate) fn entry_count(edges: &[MinEdge], run: &Run) -> usize
    ensures { result ≡ entry_count edges.now run.now }
{
    1usize << asks_of(edges, run).count_ones()
}

// Puts the steps of a run's entries at the end.
fn push_run_steps<'a>(
    steps: &mut Vec<Option<&'a MinEdge>>,
    edges: &'a [MinEdge],
    run: &Run,
) -> Result<(), Memory>
    ensures { IfOk result (λ _. map option_copied steps.new.items ≡ map option_copied steps.old.items ++ steps_of_run edges.now run.now) }
{
    let asks = asks_of(edges, run);
    let own = edges_of(edges, run);
    for j in 0..entry_count(edges, run) {
        push(steps, edge_at(asks, j, own))?;
    }
    Ok(())
}

// Puts the steps of a state's entries at the end.
fn push_state_steps<'a>(
    alloc: Global,
    steps: &mut Vec<Option<&'a MinEdge>>,
    state: &'a MinState,
) -> Result<(), Memory>
    ensures { IfOk result (λ _. map option_copied steps.new.items ≡ map option_copied steps.old.items ++ steps_of state.now) }
{
    let runs = ordered_of(alloc, state)?;
    let edges = state.edges.as_slice();
    for run in &runs {
        push_run_steps(steps, edges, run)?;
    }
    Ok(())
}

/// The steps of a state's entries.
pub(crate) fn steps_of<'a>(
    alloc: Global,
    state: &'a MinState,
) -> Result<Vec<Option<&'a MinEdge>>, Memory>
    ensures { IfOk result (λ v. map option_copied v.items ≡ steps_of state.now) }
{
    let mut steps = Vec::new(alloc);
    push_state_steps(alloc, &mut steps, state)?;
    Ok(steps)
}
