// The states of the machine.
ghost use Rattle.std.specs.Prelude.{◌≡◌, ◌≤◌, IfOk, length, map};
ghost use Rattle.rl_labels.specs.declared.stamped.Stamp.{Stamp};
ghost use Rattle.rl_fsm.specs.Roots.{ends_at, token_list_at};
ghost use Rattle.rl_reach.specs.States.{listed, actions_of, plain_actions, eof_stamps, home_of, min_edge, min_state, error_state, state_for, states_for};

use crate::lists::{copied, push};
use crate::parts::{ends, kind_at, scans, start_at, state_at, token_list};
use crate::place::Place;
use crate::places::{number_in, place_at};
use indexmap::IndexSet;
use rl_fsm::{Edge, RootFsm, State};
use rl_labels::Stamped;
use rl_minimal::{MinEdge, MinState};
use rl_types::{ActionId, List, Memory};
use std::alloc::Global;

// The actions in the order of their stamps, each once.
fn actions_of(stamps: &Stamped) -> Result<List<ActionId>, Memory>
    ensures { IfOk result (λ v. v ≡ actions_of stamps.now) }
{
    let actions = stamps.order_once()?;
    Ok(List::from_vec(actions))
}

// The actions, in a plain entry; none in a scanner.
fn plain_actions(
    alloc: Global,
    root: &RootFsm,
    entry: u32,
    stamps: &Stamped,
) -> Result<List<ActionId>, Memory>
    ensures { IfOk result (λ v. v ≡ plain_actions root.now entry stamps.now) }
{
    if scans(root, entry) {
        Ok(List::new(alloc))
    } else {
        actions_of(stamps)
    }
}

// What is called where the input ends at the place, which has this state.
fn eof_of(
    alloc: Global,
    root: &RootFsm,
    place: Place,
    state: &State,
) -> Result<List<ActionId>, Memory>
    ensures { IfOk result (λ v. v ≡ plain_actions root.now place.entry (eof_stamps (ends_at root.now place.entry place.state) state.now)) }
{
    let others = if ends(root, place) {
        &state.out.actions
    } else {
        &state.marks.error
    };
    let stamps = state.marks.eof.join(others)?;
    plain_actions(alloc, root, place.entry, &stamps)
}

// The list of the token that ends at the place.
fn token_of(alloc: Global, root: &RootFsm, place: Place) -> Result<List<ActionId>, Memory>
    ensures { IfOk result (λ v. v ≡ listed (token_list_at root.now place.entry place.state)) }
{
    let list = copied(alloc, token_list(root, place))?;
    Ok(List::from_vec(list))
}

// The number of the scanner's start; 0 in a plain entry.
fn home_of(root: &RootFsm, places: &IndexSet<Place>, entry: u32) -> u32
    requires { length places.now.keys ≤ 2147483646 }
    ensures { result ≡ home_of root.now places.now.keys entry }
{
    if !scans(root, entry) {
        return 0;
    }
    let state = start_at(root, entry);
    number_in(places, Place { entry, state })
}

fn min_edge(places: &IndexSet<Place>, entry: u32, e: &Edge) -> Result<MinEdge, Memory>
    requires { length places.now.keys ≤ 2147483646 }
    ensures { IfOk result (λ m. m ≡ min_edge places.now.keys entry e.now) }
{
    let target = Place {
        entry,
        state: e.target,
    };
    Ok(MinEdge {
        range: e.range,
        asks: e.asks,
        truths: e.truths,
        target: number_in(places, target),
        list: actions_of(&e.actions)?,
    })
}

fn min_edges(
    alloc: Global,
    places: &IndexSet<Place>,
    entry: u32,
    edges: &[Edge],
) -> Result<List<MinEdge>, Memory>
    requires { length places.now.keys ≤ 2147483646 }
    ensures { IfOk result (λ v. v ≡ map (min_edge places.now.keys entry) edges.now) }
{
    let mut made = Vec::new(alloc);
    for e in edges {
        push(&mut made, min_edge(places, entry, e)?)?;
    }
    Ok(List::from_vec(made))
}

// The state at a place, which is `state` there.
fn min_state(
    alloc: Global,
    root: &RootFsm,
    places: &IndexSet<Place>,
    place: Place,
    state: &State,
) -> Result<MinState, Memory>
    requires { length places.now.keys ≤ 2147483646 }
    ensures { IfOk result (λ m. m ≡ min_state root.now places.now.keys place state.now) }
{
    let from = actions_of(&state.marks.from)?;
    let to = actions_of(&state.marks.to)?;
    let eof = eof_of(alloc, root, place, state)?;
    let error = plain_actions(alloc, root, place.entry, &state.marks.error)?;
    let token = token_of(alloc, root, place)?;
    let edges = min_edges(alloc, places, place.entry, state.edges.as_slice())?;
    Ok(MinState {
        kind: kind_at(root, place),
        home: home_of(root, places, place.entry),
        from,
        to,
        eof,
        error,
        token,
        edges,
    })
}

// Error.
fn error_state(alloc: Global) -> MinState
    ensures { result ≡ error_state }
{
    MinState {
        kind: 0,
        home: 0,
        from: List::new(alloc),
        to: List::new(alloc),
        eof: List::new(alloc),
        error: List::new(alloc),
        token: List::new(alloc),
        edges: List::new(alloc),
    }
}

// The state of a place.
fn state_for(
    alloc: Global,
    root: &RootFsm,
    places: &IndexSet<Place>,
    place: Place,
) -> Result<MinState, Memory>
    requires { length places.now.keys ≤ 2147483646 }
    ensures { IfOk result (λ m. m ≡ state_for root.now places.now.keys place) }
{
    match state_at(root, place) {
        Some(state) => min_state(alloc, root, places, place, state),
        None => Ok(error_state(alloc)),
    }
}

// Error, and the states of all places in order.
pub(crate) fn states_for(
    alloc: Global,
    root: &RootFsm,
    places: &IndexSet<Place>,
) -> Result<Vec<MinState>, Memory>
    requires { length places.now.keys ≤ 2147483646 }
    ensures { IfOk result (λ v. v.items ≡ states_for root.now places.now.keys) }
{
    let mut states = Vec::new(alloc);
    push(&mut states, error_state(alloc))?;
    for i in 0..places.len() {
        let state = state_for(alloc, root, places, place_at(places, i))?;
        push(&mut states, state)?;
    }
    Ok(states)
}
