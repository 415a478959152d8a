// The machine of all configurations that are reached.
ghost use Rattle.std.specs.Prelude.{◌≡◌, ◌≤◌, List, IfOk, IfErr, OnOk, length};
ghost use Rattle.rl_automata.specs.Auto.{quiet};
ghost use Rattle.rl_automata.specs.Refused.{HasMore};
ghost use Rattle.rl_fsm.specs.Builds.{Builds};
ghost use Rattle.rl_explore.specs.Numbers.{IsFull, Explored, IsCauseWithin, HasNoCauseWithin, IsCause, HasNoCause};

use crate::fault::BuildFault;
use crate::lists::push;
use crate::names::Names;
use crate::number::number;
use crate::operator::Operator;
use crate::state::state_of;
use rl_fsm::{Fsm, State};
use rl_types::MOST_CONFIGURATIONS;
use std::alloc::Global;

// All states, and whether the candidates for a step are a cycle somewhere.
#[derive(Drop)]
struct Walked {
    states: Vec<State>,
    cycle: bool,
}

// The states of all configurations that are reached, in order of first use.
fn walk<O: Operator>(alloc: Global, op: &O, room: u32) -> Result<Walked, BuildFault>
    requires { 1 ≤ room }
    ensures walked { IfOk result (λ w. (names : List O.Conf) × Explored (O.auto op.now) (O.jams op.now) room names w.states.items w.cycle × (length names ≤ length w.states.items)) }
    ensures full { IfErr result (IsFull (HasMore (O.auto op.now) room)) }
{
    let mut names = Names::new(alloc);
    let first = op.start(alloc)?;
    let _ = number::<O>(&mut names, first, room)?;
    let mut states: Vec<State> = Vec::new(alloc);
    let mut cycle = false;
    'states: while states.len() < names.len() {
        let made = state_of(alloc, op, &mut names, states.len(), room)?;
        push(&mut states, made.state)?;
        cycle = cycle || made.cycle;
    }
    Ok(Walked { states, cycle })
}

/// The machine of all configurations that the operator reaches, numbered in the order in which a walk from the start
/// finds them, by ascending keys and truths (this profile). `L6` comes exactly where more than `room` configurations are
/// reached, else `L8` exactly where more than `most` are, and else `F15` exactly where the candidates of one of them are a
/// cycle of priorities at some letter; `Memory` is want of memory.
pub fn explore_within<O: Operator>(
    alloc: Global,
    op: &O,
    room: u32,
    most: u32,
) -> Result<Fsm, BuildFault>
    requires some { 1 ≤ room }
    requires fits { room ≤ 2147483646 }
    ensures builds { IfOk result (λ m. Builds (quiet (O.auto op.now)) m) }
    ensures accepted { OnOk result (HasNoCauseWithin room (O.auto op.now) (O.jams op.now) most) }
    ensures refused { IfErr result (IsCauseWithin room (O.auto op.now) (O.jams op.now) most) }
{
    let walked = walk(alloc, op, room)?;
    if walked.states.len() > most as usize {
        return Err(BuildFault::L8);
    }
    if walked.cycle {
        return Err(BuildFault::F15);
    }
    match Fsm::new(0, walked.states) {
        Some(machine) => Ok(machine),
        None => unreachable!(),
    }
}

/// The same of a node of an expression, which may have 32,767 configurations (this profile).
pub fn explore<O: Operator>(alloc: Global, op: &O, most: u32) -> Result<Fsm, BuildFault>
    ensures builds { IfOk result (λ m. Builds (quiet (O.auto op.now)) m) }
    ensures accepted { OnOk result (HasNoCause (O.auto op.now) (O.jams op.now) most) }
    ensures refused { IfErr result (IsCause (O.auto op.now) (O.jams op.now) most) }
{
    explore_within(alloc, op, MOST_CONFIGURATIONS, most)
}
