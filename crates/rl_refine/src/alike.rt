// The classes of alike states.
ghost use Rattle.std.specs.Prelude.{IfOk};
ghost use Rattle.rl_refine.specs.Classes.{AreClasses};

use crate::lists::are_same;
use crate::splits::{one_class, split};
use rl_minimal::MinFsm;
use rl_types::Memory;
use std::alloc::Global;

/// For each state of the machine its class: the least number of the states that are alike it. Two states are alike
/// where along every word both step or neither does, with the same lists of actions, where they show the same at each
/// point - their lists, whether they are final, their kinds, and which conditions they ask at each key - and where the
/// same holds of their homes (this profile). Error is in a class of its own, 0, since it stops a run. An `Err` is want
/// of memory.
#[tactic(auto, using(crate::proofs::AlikeLaws::split_coarse, crate::proofs::AlikeLaws::split_classes, crate::proofs::SplitLaws::split_falls))]
pub fn classes(alloc: Global, machine: &MinFsm) -> Result<Vec<u32>, Memory>
    ensures { IfOk result (λ v. AreClasses machine.now v.items) }
{
    let _ = machine.states();
    let mut classes = one_class(alloc, machine)?;
    let mut parts = split(alloc, machine, &classes)?;
    'rounds: while !are_same(&parts, &classes) {
        classes = parts;
        parts = split(alloc, machine, &classes)?;
    }
    Ok(parts)
}
