// What several states of a machine do together.
ghost use Rattle.std.specs.Prelude.{◌≡◌, IfOk, map};
ghost use Rattle.std.specs.List.{flat_map, list_any};
ghost use Rattle.rl_automata.specs.Auto.{asked_of, steps_of};
ghost use Rattle.rl_fsm.specs.Graphs.{fsm_auto, ranges_at};

use crate::lists::{extend, push, push_some};
use rl_automata::{Kind, Move};
use rl_fsm::{Fsm, look_ups};
use rl_labels::{Carry, Stamp, Truths};
use rl_types::{KeyRange, Letter, Memory};
use std::alloc::Global;

// Their steps.
pub fn steps_of(
    alloc: Global,
    m: &Fsm,
    states: &[u32],
    letter: Letter,
) -> Result<Vec<Move<u32>>, Memory>
    ensures { IfOk result (λ v. v.items ≡ steps_of (fsm_auto m.now) letter states.now) }
{
    let mut moves: Vec<Move<u32>> = Vec::new(alloc);
    for i in states {
        let step = look_ups::step(alloc, m, *i, letter)?;
        push_some(&mut moves, step)?;
    }
    Ok(moves)
}

// Whether one of them is final.
pub fn any_final(m: &Fsm, states: &[u32]) -> bool
    ensures { result ≡ list_any (fsm_auto m.now).final states.now }
{
    states.iter().any(|i| look_ups::is_final(m, *i))
}

// The conditions that they ask.
pub fn asked_of(m: &Fsm, states: &[u32], at: Letter) -> Truths
    ensures { result.0 ≡ asked_of (fsm_auto m.now) at.key states.now }
{
    let mut asks = 0;
    let mut i = states.len();
    while i > 0 {
        i -= 1;
        asks = look_ups::asked(m, states[i], at).0 | asks;
    }
    Truths(asks)
}

// What they put on the steps that leave them.
pub fn outs_of(alloc: Global, m: &Fsm, states: &[u32]) -> Result<Vec<Carry>, Memory>
    ensures { IfOk result (λ v. v.items ≡ map (fsm_auto m.now).out states.now) }
{
    let mut outs: Vec<Carry> = Vec::new(alloc);
    for i in states {
        let out = look_ups::out(alloc, m, *i)?;
        push(&mut outs, out)?;
    }
    Ok(outs)
}

// The actions of the kind that stay with them.
pub fn marks_of(alloc: Global, m: &Fsm, states: &[u32], kind: Kind) -> Result<Vec<Stamp>, Memory>
    ensures { IfOk result (λ v. v.items ≡ flat_map (λ t. (fsm_auto m.now).marks t kind) states.now) }
{
    let mut marks: Vec<Stamp> = Vec::new(alloc);
    for i in states {
        extend(&mut marks, look_ups::marks(m, *i, kind))?;
    }
    Ok(marks)
}

// The ranges of their edges.
pub fn ranges_of(alloc: Global, m: &Fsm, states: &[u32]) -> Result<Vec<KeyRange>, Memory>
    ensures { IfOk result (λ v. v.items ≡ flat_map (ranges_at m.now) states.now) }
{
    let mut ranges: Vec<KeyRange> = Vec::new(alloc);
    for i in states {
        let more = look_ups::ranges(alloc, m, *i)?;
        extend(&mut ranges, &more)?;
    }
    Ok(ranges)
}
