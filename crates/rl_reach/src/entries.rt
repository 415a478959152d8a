// The starts of all entries.
ghost use Rattle.std.specs.Prelude.{◌≡◌, ℕ, ◌≤◌, ◌<◌, IfOk, IfSome, IsNone, length};
ghost use Rattle.rl_fsm.specs.Roots.{states_in};
ghost use Rattle.rl_reach.specs.Walks.{AreSound, IsSoundAt, start_of, starts_of};

use crate::lists::push;
use crate::place::Place;
use rl_fsm::{EntryFsm, RootFsm};
use rl_types::{EntryId, Memory};
use std::alloc::Global;

// The start of the entry of this number, from 1, if there is one.
fn start_of(root: &RootFsm, entry: u32) -> Option<Place>
    requires { 1 ≤ entry }
    ensures start { IfSome result (λ p. p ≡ start_of root.now entry) }
    ensures there { IfSome result (λ _. entry ≤ length root.now) }
    ensures sound { IfSome result (λ _. IsSoundAt root.now entry) }
    ensures none { IsNone result → length root.now < entry }
    ensures few { states_in root.now ≤ 2147483646 }
{
    match root.entry(EntryId(entry)) {
        Some(EntryFsm::Plain(machine)) => {
            let _ = machine.states();
            Some(Place {
                entry,
                state: machine.start(),
            })
        }
        Some(EntryFsm::Scanner(scanner)) => {
            let machine = scanner.machine();
            let _ = machine.states();
            Some(Place {
                entry,
                state: machine.start(),
            })
        }
        None => None,
    }
}

// The starts of all entries, in text order.
pub(crate) fn starts(alloc: Global, root: &RootFsm) -> Result<Vec<Place>, Memory>
    ensures starts { IfOk result (λ v. v.items ≡ starts_of root.now) }
    ensures sound { IfOk result (λ _. AreSound root.now) }
{
    let mut starts = Vec::new(alloc);
    let mut entry: u32 = 1;
    'entries: while let Some(start) = start_of(root, entry) {
        push(&mut starts, start)?;
        entry += 1;
    }
    Ok(starts)
}
