// The machines of one character, of the empty word, and of no word.
ghost use Rattle.std.specs.Prelude.{◌≡◌, [], ◌∷◌, IfOk, map};
ghost use Rattle.std.specs.List.{list_any};
ghost use Rattle.rl_types.specs.KeyRange.{in_range};
ghost use Rattle.rl_fsm.specs.Pieces.{ArePieces};
ghost use Rattle.rl_fsm.specs.Made.{plain_state, set_edge, pieces_in, states_for};

use crate::edge::Edge;
use crate::lists::push;
use crate::pieces::pieces;
use crate::state::{Marks, Out, State};
use rl_labels::{Priors, Stamped, Truths};
use rl_types::{KeyRange, Memory};
use std::alloc::Global;

// A state that carries nothing.
fn plain_state(alloc: Global, fin: bool, edges: Vec<Edge>) -> State
    ensures { result ≡ plain_state fin edges.items }
{
    State {
        fin,
        out: Out {
            actions: Stamped::new(alloc),
            priors: Priors::new(alloc),
        },
        marks: Marks {
            to: Stamped::new(alloc),
            from: Stamped::new(alloc),
            eof: Stamped::new(alloc),
            error: Stamped::new(alloc),
        },
        edges: rl_types::List::from_vec(edges),
    }
}

// To the second state, at the keys of the range.
fn set_edge(alloc: Global, range: KeyRange) -> Edge
    ensures { result ≡ set_edge range }
{
    Edge {
        range,
        asks: Truths(0),
        truths: Truths(0),
        target: 1,
        actions: Stamped::new(alloc),
        priors: Priors::new(alloc),
    }
}

// Whether the range has the first key of the piece.
fn has(range: KeyRange, piece: KeyRange) -> bool
    ensures { result ≡ in_range piece.lo range }
{
    let key = piece.lo();
    range.lo() <= key && key <= range.hi()
}

// Whether the first key of the piece is in the set.
fn is_in(set: &[KeyRange], piece: KeyRange) -> bool
    ensures { result ≡ list_any (in_range piece.lo) set.now }
{
    set.iter().any(|r| has(*r, piece))
}

// Edges at the pieces that lie in the set.
fn set_edges(alloc: Global, set: &[KeyRange], pieces: &[KeyRange]) -> Result<Vec<Edge>, Memory>
    ensures { IfOk result (λ v. v.items ≡ map set_edge (pieces_in set.now pieces.now)) }
{
    let mut edges: Vec<Edge> = Vec::new(alloc);
    for p in pieces {
        if is_in(set, *p) {
            push(&mut edges, set_edge(alloc, *p))?;
        }
    }
    Ok(edges)
}

// The state before the character and, if there is a key for it, the state after it.
fn states_for(alloc: Global, edges: Vec<Edge>) -> Result<Vec<State>, Memory>
    ensures { IfOk result (λ v. v.items ≡ states_for edges.items) }
{
    let some = !edges.is_empty();
    let mut states: Vec<State> = Vec::new(alloc);
    push(&mut states, plain_state(alloc, false, edges))?;
    if some {
        push(&mut states, plain_state(alloc, true, Vec::new(alloc)))?;
    }
    Ok(states)
}

/// The states of the machine of one character of a set; the first is the start.
pub fn set_states(alloc: Global, set: &[KeyRange]) -> Result<Vec<State>, Memory>
    ensures { IfOk result (λ v. (ps : _) × ArePieces set.now ps × (v.items ≡ states_for (map set_edge (pieces_in set.now ps)))) }
{
    let pieces = pieces(alloc, set)?;
    let edges = set_edges(alloc, set, &pieces)?;
    let states = states_for(alloc, edges)?;
    Ok(states)
}

/// The one state of the empty word, which is final, or of no word.
pub fn point_states(alloc: Global, fin: bool) -> Result<Vec<State>, Memory>
    ensures { IfOk result (λ v. v.items ≡ plain_state fin [] ∷ []) }
{
    let mut states: Vec<State> = Vec::new(alloc);
    push(&mut states, plain_state(alloc, fin, Vec::new(alloc)))?;
    Ok(states)
}
