// The configurations of a machine's states.
ghost use Rattle.std.specs.Prelude.{◌≡◌, ℕ, List, Option, IfOk, slice_get};
ghost use Rattle.std.specs.Option.{option_map};
ghost use Rattle.rl_automata.specs.declared.moves.Move.{Move};
ghost use Rattle.rl_fsm.specs.Graphs.{edges_at};
ghost use Rattle.rl_explore.specs.Steps.{move_in};
ghost use Rattle.rl_scan.specs.Beside.{side_auto};
ghost use Rattle.rl_scan.specs.Walks.{to_of, with_target, with_targets, with_state, walked};

use crate::lists::push_some;
use crate::operator::{Side, side_step};
use crate::parts::Parts;
use rl_explore::{Operator, Step};
use rl_fsm::{Edge, Fsm};
use rl_types::{Letter, Memory};
use std::alloc::Global;

// Where the step leads, if it is one.
fn target_of(step: Step<Parts>) -> Option<Parts>
    ensures { result ≡ option_map (λ (m : Move (List (Option ℕ))). m.to) (move_in step) }
{
    match step {
        Step::Stay => None,
        Step::Cycle => None,
        Step::Go(m) => Some(m.to),
    }
}

// Where the machines in this configuration step on the first letter of the edge.
fn led_to(alloc: Global, side: &Side<'_>, c: &Parts, e: &Edge) -> Result<Option<Parts>, Memory>
    ensures { IfOk result (λ o. o ≡ to_of (side_auto side.now.machines.now) c.now e.now) }
{
    let letter = Letter {
        key: e.range.lo(),
        truths: e.truths.0,
    };
    let step = side_step(alloc, side.machines, c.states(), letter)?;
    Ok(target_of(step))
}

// Adds where the edge leads, if that is the next state that is not found yet.
fn add_target(
    alloc: Global,
    side: &Side<'_>,
    c: &Parts,
    e: &Edge,
    found: &mut Vec<Parts>,
) -> Result<(), Memory>
    ensures { IfOk result (λ _. found.new.items ≡ with_target (side_auto side.now.machines.now) c.now found.old.items e.now) }
{
    if e.target as usize != found.len() {
        return Ok(());
    }
    let to = led_to(alloc, side, c, e)?;
    push_some(found, to)?;
    Ok(())
}

// The same of all edges.
fn add_targets(
    alloc: Global,
    side: &Side<'_>,
    c: &Parts,
    edges: &[Edge],
    found: &mut Vec<Parts>,
) -> Result<(), Memory>
    ensures { IfOk result (λ _. found.new.items ≡ with_targets (side_auto side.now.machines.now) c.now found.old.items edges.now) }
{
    for e in edges {
        add_target(alloc, side, c, e, found)?;
    }
    Ok(())
}

// The configuration of the state, in memory of its own, if it is found.
fn copy_at(alloc: Global, found: &[Parts], state: u32) -> Result<Option<Parts>, Memory>
    ensures { IfOk result (λ o. o ≡ slice_get found.now state) }
{
    match found.get(state as usize) {
        None => Ok(None),
        Some(c) => Ok(Some(c.copy(alloc)?)),
    }
}

// Adds where the state's edges lead.
fn add_state(
    alloc: Global,
    side: &Side<'_>,
    state: u32,
    edges: &[Edge],
    found: &mut Vec<Parts>,
) -> Result<(), Memory>
    ensures { IfOk result (λ _. found.new.items ≡ with_state (side_auto side.now.machines.now) state found.old.items edges.now) }
{
    let Some(c) = copy_at(alloc, found, state)? else {
        return Ok(());
    };
    add_targets(alloc, side, &c, edges, found)?;
    Ok(())
}

// The configurations of all states, by their numbers. They are found as they were when the machine was made: each
// configuration, but for the start's, is where the first edge that leads to its state steps.
#[tactic(auto, using(crate::proofs::WalkLaws::walked_first, crate::proofs::WalkLaws::walked_next))]
pub fn configurations(alloc: Global, side: &Side<'_>, m: &Fsm) -> Result<Vec<Parts>, Memory>
    ensures { IfOk result (λ v. v.items ≡ walked (side_auto side.now.machines.now) m.now) }
{
    let mut found: Vec<Parts> = Vec::new(alloc);
    let start = side.start(alloc)?;
    push_some(&mut found, Some(start))?;
    for state in 0..m.states() {
        add_state(alloc, side, state, m.edges(state), &mut found)?;
    }
    Ok(found)
}
