// The states of the classes.
ghost use Rattle.std.specs.Prelude.{◌≡◌, IfOk, map};
ghost use Rattle.rl_min.specs.Merged.{number_at, number_or, merged_edge, merged_state, error_state, state_for};

use crate::lists::{copied, push};
use rl_minimal::{MinEdge, MinFsm, MinState};
use rl_types::{ActionId, List, Memory};
use std::alloc::Global;

// The number of a state's class; 0 where there is no such state.
fn number_at(numbers: &[u32], state: u32) -> u32
    ensures { result ≡ number_at numbers.now state }
{
    match numbers.get(state as usize) {
        Some(number) => *number,
        None => 0,
    }
}

// The number of a state's class; `other` where there is no such state.
pub(crate) fn number_or(numbers: &[u32], state: u32, other: u32) -> u32
    ensures { result ≡ number_or numbers.now state other }
{
    match numbers.get(state as usize) {
        Some(number) => *number,
        None => other,
    }
}

// The list in memory of its own.
fn copied_list(alloc: Global, list: &List<ActionId>) -> Result<List<ActionId>, Memory>
    ensures { IfOk result (λ v. v ≡ list.now) }
{
    let items = copied(alloc, list.as_slice())?;
    Ok(List::from_vec(items))
}

// The edge, to the class of its target.
fn merged_edge(alloc: Global, numbers: &[u32], e: &MinEdge) -> Result<MinEdge, Memory>
    ensures { IfOk result (λ m. m ≡ merged_edge numbers.now e.now) }
{
    Ok(MinEdge {
        range: e.range,
        asks: e.asks,
        truths: e.truths,
        target: number_at(numbers, e.target),
        list: copied_list(alloc, &e.list)?,
    })
}

fn merged_edges(alloc: Global, numbers: &[u32], edges: &[MinEdge]) -> Result<List<MinEdge>, Memory>
    ensures { IfOk result (λ v. v ≡ map (merged_edge numbers.now) edges.now) }
{
    let mut made = Vec::new(alloc);
    for e in edges {
        push(&mut made, merged_edge(alloc, numbers, e)?)?;
    }
    Ok(List::from_vec(made))
}

// The state of a class that has this state.
fn merged_state(alloc: Global, numbers: &[u32], s: &MinState) -> Result<MinState, Memory>
    ensures { IfOk result (λ m. m ≡ merged_state numbers.now s.now) }
{
    let from = copied_list(alloc, &s.from)?;
    let to = copied_list(alloc, &s.to)?;
    let eof = copied_list(alloc, &s.eof)?;
    let error = copied_list(alloc, &s.error)?;
    let token = copied_list(alloc, &s.token)?;
    let edges = merged_edges(alloc, numbers, s.edges.as_slice())?;
    Ok(MinState {
        kind: s.kind,
        home: number_at(numbers, s.home),
        from,
        to,
        eof,
        error,
        token,
        edges,
    })
}

// Error.
fn error_state(alloc: Global) -> MinState
    ensures { result ≡ error_state }
{
    MinState {
        kind: 0,
        home: 0,
        from: List::new(alloc),
        to: List::new(alloc),
        eof: List::new(alloc),
        error: List::new(alloc),
        token: List::new(alloc),
        edges: List::new(alloc),
    }
}

// The state of the class of a state.
fn state_for(
    alloc: Global,
    machine: &MinFsm,
    numbers: &[u32],
    state: u32,
) -> Result<MinState, Memory>
    ensures { IfOk result (λ m. m ≡ state_for machine.now.states numbers.now state) }
{
    match machine.all_states().get(state as usize) {
        Some(s) => merged_state(alloc, numbers, s),
        None => Ok(error_state(alloc)),
    }
}

// The states of classes, of each of which a state is given.
pub(crate) fn states_for(
    alloc: Global,
    machine: &MinFsm,
    numbers: &[u32],
    states: &[u32],
) -> Result<Vec<MinState>, Memory>
    ensures { IfOk result (λ v. v.items ≡ map (state_for machine.now.states numbers.now) states.now) }
{
    let mut made = Vec::new(alloc);
    for state in states {
        push(&mut made, state_for(alloc, machine, numbers, *state)?)?;
    }
    Ok(made)
}

// The numbers of the classes of these states.
pub(crate) fn numbers_for(
    alloc: Global,
    numbers: &[u32],
    states: &[u32],
) -> Result<Vec<u32>, Memory>
    ensures { IfOk result (λ v. v.items ≡ map (number_at numbers.now) states.now) }
{
    let mut found = Vec::new(alloc);
    for state in states {
        push(&mut found, number_at(numbers, *state))?;
    }
    Ok(found)
}
