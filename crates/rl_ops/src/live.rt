// Which states some word leads from to a final one.
ghost use Rattle.std.specs.Prelude.{◌≡◌, ◌<◌, false, IfOk, length, replicate};
ghost use Rattle.std.specs.List.{list_any};
ghost use Rattle.rl_automata.specs.Nodes.{TellsLive};
ghost use Rattle.rl_fsm.specs.Graphs.{fsm_auto};
ghost use Rattle.rl_ops.specs.Live.{live_at, can_end, Visits, Sweeps};

use rl_fsm::{Edge, Fsm};
use rl_types::Memory;
use std::alloc::Global;

// Whether the state of this number is marked.
pub fn is_live(live: &[bool], state: u32) -> bool
    ensures { result ≡ live_at live.now state }
{
    live.get(state as usize).copied().unwrap_or(false)
}

// Whether one of the edges leads to a marked state.
fn leads_on(live: &[bool], edges: &[Edge]) -> bool
    ensures { result ≡ list_any (λ e. live_at live.now e.target) edges.now }
{
    edges.iter().any(|e| is_live(live, e.target))
}

// Whether the state is final, or an edge leads from it to a marked one.
fn can_end(m: &Fsm, live: &[bool], state: u32) -> bool
    ensures { result ≡ can_end m.now live.now state }
{
    match m.state(state) {
        None => false,
        Some(s) => s.fin || leads_on(live, s.edges.as_slice()),
    }
}

// Marks the state, if it can end and is not marked yet; whether it did.
fn visit(m: &Fsm, live: &mut Vec<bool>, state: u32) -> bool
    requires { state < length live.old.items }
    ensures { Visits m.now live.old.items live.new.items state result }
{
    if is_live(live, state) || !can_end(m, live, state) {
        return false;
    }
    live[state as usize] = true;
    true
}

// Visits all states, from the last one down; whether it marked one.
fn sweep(m: &Fsm, live: &mut Vec<bool>) -> bool
    requires { length live.old.items ≡ length m.now.states }
    ensures { Sweeps m.now live.old.items live.new.items 0 result }
{
    let mut changed = false;
    let mut i = m.states();
    'states: while i > 0 {
        i -= 1;
        let here = visit(m, live, i);
        changed = changed || here;
    }
    changed
}

// No marks, for so many states.
fn none_marked(alloc: Global, states: usize) -> Result<Vec<bool>, Memory>
    ensures { IfOk result (λ v. v.items ≡ replicate states false) }
{
    vec![in alloc; false; states].map_err(|_| Memory)
}

// The marks of the states that some word leads from to a final one. Edges mostly lead to higher numbers, so that a few
// sweeps do.
pub fn live_states(alloc: Global, m: &Fsm) -> Result<Vec<bool>, Memory>
    ensures { IfOk result (λ v. TellsLive (fsm_auto m.now) (live_at v.items)) }
{
    let mut live = none_marked(alloc, m.states() as usize)?;
    let mut changed = true;
    'sweeps: while changed {
        changed = sweep(m, &mut live);
    }
    Ok(live)
}
