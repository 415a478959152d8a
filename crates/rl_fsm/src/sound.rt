// Whether states make a machine.
ghost use Rattle.std.specs.Prelude.{◌≡◌, ℕ, ◌<◌, ◌↔◌, All, IsTrue, length, map};
ghost use Rattle.rl_fsm.specs.Reads.{is_before, ascend, same_range};
ghost use Rattle.rl_fsm.specs.Graphs.{reads_of};
ghost use Rattle.rl_fsm.specs.Sound.{IsEdge, AreEdges, IsSound};

use crate::edge::Edge;
use crate::state::State;
use rl_types::KeyRange;

// The most states of a machine.
const MOST_STATES: usize = 2_147_483_646;

fn same_range(r: KeyRange, s: KeyRange) -> bool
    ensures { result ≡ same_range r s }
{
    r.lo() == s.lo() && r.hi() == s.hi()
}

// Whether the edge has lower keys than the next one, or the same keys, the same conditions and lesser truths.
fn is_before(e: &Edge, f: &Edge) -> bool
    ensures { result ≡ is_before (reads_of e.now) (reads_of f.now) }
{
    e.range.hi() < f.range.lo()
        || (same_range(e.range, f.range) && e.asks.0 == f.asks.0 && e.truths.0 < f.truths.0)
}

// Whether each edge is before the next.
fn ascend(edges: &[Edge]) -> bool
    ensures { result ≡ ascend (map reads_of edges.now) }
{
    let mut i = 1;
    'pairs: while i < edges.len() {
        if !is_before(&edges[i - 1], &edges[i]) {
            return false;
        }
        i += 1;
    }
    true
}

// Whether the edge leads to one of so many states, and its truths are among what it asks.
fn is_edge(e: &Edge, states: usize) -> bool
    ensures { IsTrue result ↔ IsEdge states e.now }
{
    let (asks, truths) = (e.asks.0, e.truths.0);
    (e.target as usize) < states && truths & asks == truths && e.range.lo() <= e.range.hi()
}

// Whether these are the edges of a state.
fn are_edges(edges: &[Edge], states: usize) -> bool
    ensures { IsTrue result ↔ AreEdges states edges.now }
{
    edges.iter().all(|e| is_edge(e, states)) && ascend(edges)
}

// Whether there are few enough states, the start is one of them, and the edges of each are sound.
pub fn is_sound(start: u32, states: &[State]) -> bool
    ensures { IsTrue result ↔ IsSound (record { start = start; states = states.now }) }
{
    let count = states.len();
    count <= MOST_STATES
        && (start as usize) < count
        && states.iter().all(|s| are_edges(s.edges.as_slice(), count))
}
