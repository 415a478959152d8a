// Whether states make a machine.
ghost use Rattle.std.specs.Prelude.{◌≡◌, ℕ, ◌<◌, ◌≤◌, ◌↔◌, [], Some, All, IsTrue, IfSome, length, map, slice_get, MatchOption};
ghost use Rattle.std.specs.Option.{option_copied};
ghost use Rattle.rl_fsm.specs.Reads.{is_before, ascend, same_range};
ghost use Rattle.rl_minimal.specs.Minimal.{Minimal, reads_of, kind_at, home_at};
ghost use Rattle.rl_minimal.specs.declared.state.MinState.{MinState};
ghost use Rattle.rl_minimal.specs.Sound.{StaysIn, IsTarget, AreReads, IsEdge, AreEdges, HasKind, HasHome, HasLists, IsState, IsError, IsEntry, AreCounts, IsMinimal};

use crate::state::{MinEdge, MinState};
use rl_types::KeyRange;

fn kind_at(states: &[MinState], state: u32) -> u8
    ensures { result ≡ kind_at states.now state }
{
    match states.get(state as usize) {
        Some(s) => s.kind,
        None => 0,
    }
}

fn home_at(states: &[MinState], state: u32) -> u32
    ensures { result ≡ home_at states.now state }
{
    match states.get(state as usize) {
        Some(s) => s.home,
        None => 0,
    }
}

// Whether a state of the one kind may lead to one of the other.
fn stays_in(kind: u8, home: u32, target_kind: u8, target_home: u32) -> bool
    ensures { IsTrue result ↔ StaysIn kind home target_kind target_home }
{
    if kind == 0 {
        target_kind == 0
    } else {
        target_kind >= 2 && target_home == home
    }
}

// Whether the state may lead to the other one.
fn is_target(states: &[MinState], s: &MinState, target: u32) -> bool
    ensures { IsTrue result ↔ IsTarget states.now s.now target }
{
    (target as usize) < states.len()
        && target > 0
        && stays_in(
            s.kind,
            s.home,
            kind_at(states, target),
            home_at(states, target),
        )
}

// Whether the truths of the edge are among what it asks.
fn are_reads(e: &MinEdge) -> bool
    ensures { IsTrue result ↔ AreReads e.now }
{
    let (asks, truths) = (e.asks.0, e.truths.0);
    truths & asks == truths && e.range.lo() <= e.range.hi()
}

fn is_edge(states: &[MinState], s: &MinState, e: &MinEdge) -> bool
    ensures { IsTrue result ↔ IsEdge states.now s.now e.now }
{
    is_target(states, s, e.target) && are_reads(e)
}

fn same_range(r: KeyRange, s: KeyRange) -> bool
    ensures { result ≡ same_range r s }
{
    r.lo() == s.lo() && r.hi() == s.hi()
}

// Whether the edge has lower keys than the next one, or the same keys, the same conditions and lesser truths.
fn is_before(e: &MinEdge, f: &MinEdge) -> bool
    ensures { result ≡ is_before (reads_of e.now) (reads_of f.now) }
{
    e.range.hi() < f.range.lo()
        || (same_range(e.range, f.range) && e.asks.0 == f.asks.0 && e.truths.0 < f.truths.0)
}

// Whether each edge is before the next.
fn ascend(edges: &[MinEdge]) -> bool
    ensures { result ≡ ascend (map reads_of edges.now) }
{
    let mut rest = edges;
    while let [first, behind @ ..] = rest {
        if let [next, ..] = behind {
            if !is_before(first, next) {
                return false;
            }
        }
        rest = behind;
    }
    true
}

// Whether these are the edges of the state.
fn are_edges(states: &[MinState], s: &MinState) -> bool
    ensures { IsTrue result ↔ AreEdges states.now s.now }
{
    s.edges.as_slice().iter().all(|e| is_edge(states, s, e)) && ascend(s.edges.as_slice())
}

// Whether the kind is one, and stands on its side of the final states.
fn has_kind(first_final: u32, state: usize, kind: u8) -> bool
    ensures { IsTrue result ↔ HasKind first_final state kind }
{
    let is_final = first_final as usize <= state;
    match kind {
        0 => true,
        1 => is_final,
        _ => kind <= 4 && !is_final,
    }
}

// Whether the home is that of a state of this kind.
fn has_home(states: &[MinState], kind: u8, home: u32) -> bool
    ensures { IsTrue result ↔ HasHome states.now kind home }
{
    if kind == 0 {
        home == 0
    } else {
        (home as usize) < states.len()
            && kind_at(states, home) == 1
            && home_at(states, home) == home
    }
}

// Whether the lists that a state of its kind lacks are empty.
fn has_lists(s: &MinState) -> bool
    ensures { IsTrue result ↔ HasLists s.now }
{
    let is_plain = s.kind == 0;
    let is_match = s.kind >= 3;
    (is_plain || s.eof.is_empty())
        && (is_plain || s.error.is_empty())
        && (is_match || s.token.is_empty())
}

// Whether the state is one of the machine.
fn is_state(states: &[MinState], first_final: u32, state: usize, s: &MinState) -> bool
    ensures { IsTrue result ↔ IsState states.now first_final state s.now }
{
    has_kind(first_final, state, s.kind)
        && has_home(states, s.kind, s.home)
        && has_lists(s)
        && (s.kind != 4 || s.edges.is_empty())
        && are_edges(states, s)
}

// Whether each state is one of the machine.
fn are_states(states: &[MinState], first_final: u32) -> bool
    ensures { IsTrue result
        ↔ ((i : ℕ) (s : MinState) → slice_get states.now i ≡ Some s → IsState states.now first_final i s) }
{
    for (i, s) in states.iter().enumerate() {
        if !is_state(states, first_final, i, s) {
            return false;
        }
    }
    true
}

// Whether the state shows nothing.
fn is_error(s: &MinState) -> bool
    ensures { IsTrue result ↔ IsError s.now }
{
    s.kind == 0
        && s.from.is_empty()
        && s.to.is_empty()
        && s.eof.is_empty()
        && s.error.is_empty()
        && s.edges.is_empty()
}

// Whether the state may be an entry's.
fn is_entry(states: &[MinState], state: u32) -> bool
    ensures { IsTrue result ↔ IsEntry states.now state }
{
    state > 0 && (state as usize) < states.len() && kind_at(states, state) <= 1
}

// Whether each may be an entry's state.
fn are_entries(states: &[MinState], entries: &[u32]) -> bool
    ensures { IsTrue result ↔ All (IsEntry states.now) entries.now }
{
    entries.iter().all(|e| is_entry(states, *e))
}

// Whether there are as many of each as tables can have.
fn are_counts(states: &[MinState], entries: &[u32], first_final: u32) -> bool
    ensures { IsTrue result
        ↔ AreCounts (record { states = states.now; entries = entries.now; first_final = first_final }) }
{
    states.len() >= 2
        && states.len() <= 2_147_483_647
        && !entries.is_empty()
        && entries.len() <= 2_147_483_646
        && first_final >= 1
        && first_final as usize <= states.len()
}

// Whether the first state, if there is one, shows nothing.
fn begins_with_error(states: &[MinState]) -> bool
    ensures { IsTrue result ↔ ((s : MinState) → slice_get states.now 0 ≡ Some s → IsError s) }
{
    match states {
        [] => true,
        [error, ..] => is_error(error),
    }
}

// Whether these make a machine.
pub(crate) fn is_minimal(states: &[MinState], entries: &[u32], first_final: u32) -> bool
    ensures { IsTrue result
        ↔ IsMinimal (record { states = states.now; entries = entries.now; first_final = first_final }) }
{
    if !are_counts(states, entries, first_final) {
        return false;
    }
    if !begins_with_error(states) {
        return false;
    }
    if !are_states(states, first_final) {
        return false;
    }
    are_entries(states, entries)
}
