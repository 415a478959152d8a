// The machine with the fewest states.
ghost use Rattle.std.specs.Prelude.{◌≡◌, ◌≤◌, IfOk, length};
ghost use Rattle.rl_minimal.specs.Sound.{IsMinimal};
ghost use Rattle.rl_min.specs.Merged.{IsMergedOf};
ghost use Rattle.rl_min.specs.Least.{IsLeastOf};

use crate::merged::{number_or, numbers_for, states_for};
use crate::numbering::numbered;
use rl_fsm::RootFsm;
use rl_minimal::MinFsm;
use rl_reach::reached;
use rl_refine::classes;
use rl_types::Memory;
use std::alloc::Global;

// The machine of the classes of alike states, in the order of their first states.
fn merged(alloc: Global, machine: &MinFsm) -> Result<MinFsm, Memory>
    ensures sound { IfOk result (λ _. IsMinimal machine.now) }
    ensures merged { IfOk result (λ m. IsMergedOf machine.now m) }
{
    let _count = machine.states();
    let classes = classes(alloc, machine)?;
    let numbering = numbered(alloc, &classes)?;
    let states = states_for(alloc, machine, &numbering.numbers, &numbering.states)?;
    let entries = numbers_for(alloc, &numbering.numbers, machine.entries())?;
    let count = states.len() as u32;
    let first_final = number_or(&numbering.numbers, machine.first_final(), count);
    match MinFsm::new(states, entries, first_final) {
        Some(merged) => Ok(merged),
        None => unreachable!(),
    }
}

/// The machine with the fewest states that does what the entries do: Error, which has number 0, and a state for each
/// class of alike states among those that the entries' starts reach. Two states are alike where, along every word,
/// both step or neither does, with the same lists, and both show the same; for a scanner's states their homes are
/// alike too. The states count from 1 in the order in which a breadth-first walk meets them, from the entries in text
/// order, by ascending key and then truths; those that are not final stand before those that are, and of a scanner's
/// states the start alone is final (this profile). Lists of actions are in the order of their stamps, and of several
/// copies of an action the first stays. A scanner's states have their kinds, the number of its start as their home,
/// and the lists of their tokens (the guide's section 6.3); they have no end-of-file and error lists. An `Err` is
/// want of memory.
pub fn minimise(alloc: Global, root: &RootFsm) -> Result<MinFsm, Memory>
    requires { 1 ≤ length root.now }
    ensures { IfOk result (λ m. IsLeastOf root.now m) }
{
    let machine = reached(alloc, root)?;
    let least = merged(alloc, &machine)?;
    Ok(least)
}
