// Where words lead.
ghost use Rattle.std.specs.Prelude.{◌≡◌, ◌<◌, IfSome, length};
ghost use Rattle.std.specs.Option.{option_copied};
ghost use Rattle.rl_fsm.specs.Reads.{takes};
ghost use Rattle.rl_minimal.specs.Minimal.{reads_of};
ghost use Rattle.rl_minimal.specs.Machine.{edge_for};
ghost use Rattle.rl_certificate.specs.Walks.{target_on, walk};

use rl_minimal::{MinEdge, MinFsm};
use rl_types::Letter;

// Whether the edge takes the letter.
fn takes(e: &MinEdge, letter: Letter) -> bool
    ensures { result ≡ takes letter (reads_of e.now) }
{
    e.range.lo() <= letter.key
        && letter.key <= e.range.hi()
        && letter.truths & e.asks.0 == e.truths.0
}

// The edge that takes the letter, if there is one.
fn edge_for(edges: &[MinEdge], letter: Letter) -> Option<&MinEdge>
    ensures { option_copied result ≡ edge_for letter edges.now }
{
    edges.iter().find(|e| takes(e, letter))
}

// Where the edge of the state that takes the letter leads, if there is one.
pub(crate) fn target_on(min: &MinFsm, state: u32, letter: Letter) -> Option<u32>
    requires { state < length min.now.states }
    ensures target { result ≡ target_on min.now state letter }
    ensures there { IfSome result (λ target. target < length min.now.states) }
{
    let _ = min.states();
    let edges = min.state(state).edges.as_slice();
    match edge_for(edges, letter) {
        Some(edge) => Some(edge.target),
        None => None,
    }
}

// The state that the word leads to from this one, if there is an edge for each letter.
pub(crate) fn walk(min: &MinFsm, word: &[Letter], from: u32) -> Option<u32>
    requires { from < length min.now.states }
    ensures end { result ≡ walk min.now word.now from }
    ensures there { IfSome result (λ end. end < length min.now.states) }
{
    let mut state = from;
    for letter in word {
        state = target_on(min, state, *letter)?;
    }
    Some(state)
}
