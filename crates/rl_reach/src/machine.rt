// The machine of all entries.
ghost use Rattle.std.specs.Prelude.{◌≤◌, IfOk, length};
ghost use Rattle.rl_reach.specs.Canonical.{IsMachineOf, IsUnmerged};

use crate::entries::starts;
use crate::numbered::{numbers_of, plain_first};
use crate::states::states_for;
use crate::walk::walk;
use rl_fsm::RootFsm;
use rl_minimal::MinFsm;
use rl_types::Memory;
use std::alloc::Global;

/// The machine that the entries make together: Error, which has number 0, and the states that their starts reach. These
/// count from 1 in the order in which a breadth-first walk meets them, from the entries in text order, by ascending key
/// and then truths; those that are not final stand before those that are, and of a scanner's states the start alone is
/// final (this profile). No states are merged. Lists of actions are in the order of their stamps, and of several copies
/// of an action the first stays. A scanner's states have their kinds, the number of its start as their home, and the
/// lists of their tokens (the guide's section 6.3); they have no end-of-file and error lists. An `Err` is want of memory.
pub fn reached(alloc: Global, root: &RootFsm) -> Result<MinFsm, Memory>
    requires { 1 ≤ length root.now }
    ensures { IfOk result (λ m. (is : IsMachineOf root.now m) × IsUnmerged root.now m is) }
{
    let starts = starts(alloc, root)?;
    let met = walk(alloc, root, &starts)?;
    let numbered = plain_first(alloc, root, &met)?;
    let states = states_for(alloc, root, &numbered.places)?;
    let entries = numbers_of(alloc, &numbered.places, &starts)?;
    match MinFsm::new(states, entries, numbered.plain as u32 + 1) {
        Some(machine) => Ok(machine),
        None => unreachable!(),
    }
}
