// The machines of all entries.
use crate::fsm::Fsm;
use crate::scan_fsm::ScanFsm;
use rl_types::{EntryId, Memory};
use std::alloc::Global;
use std::marker::Model;

/// The machine of an entry.
#[derive(Debug, Drop)]
pub enum EntryFsm {
    /// The machine of an expression.
    Plain(Fsm),
    /// The machine of a scanner.
    Scanner(ScanFsm),
}

impl EntryFsm {
    ghost use Rattle.std.specs.Prelude.{◌≡◌};
    ghost use Rattle.rl_fsm.specs.Roots.{graph_of, states_of};
    ghost use Rattle.rl_fsm.specs.Sound.{IsSound};

    /// The machine, also that of a scanner.
    pub fn machine(&self) -> &Fsm
        ensures machine { result.now ≡ graph_of self.now }
        ensures sound { IsSound (graph_of self.now) }
    {
        match self {
            EntryFsm::Plain(machine) => {
                let _ = machine.states();
                machine
            }
            EntryFsm::Scanner(scanner) => {
                let _ = scanner.machine().states();
                scanner.machine()
            }
        }
    }

    // How many states it has.
    fn states(&self) -> u32
        ensures { result ≡ states_of self.now }
    {
        self.machine().states()
    }
}

/// The machines of all entries, in text order. Contracts see the list of them. Together they have at most 2,147,483,646
/// states.
#[derive(Debug, Drop)]
pub struct RootFsm {
    entries: Vec<EntryFsm>,
}

impl Model for RootFsm {
    ghost use Rattle.std.specs.Prelude.{List, ◌≤◌};
    ghost use Rattle.rl_fsm.specs.declared.root.EntryFsm.{EntryFsm};

    ghost Value = { List EntryFsm };

    ghost use Rattle.rl_fsm.specs.Roots.{states_in};

    ghost view = { λ r. r.entries.items };

    ghost invariant = { λ r. states_in r.entries.items ≤ 2147483646 };
}

impl RootFsm {
    ghost use Rattle.std.specs.Prelude.{◌≡◌, ◌+◌, ◌≤◌, [], ◌∷◌, ◌++◌, MatchResult};
    ghost use Rattle.std.specs.Option.{option_copied};
    ghost use Rattle.rl_fsm.specs.Roots.{states_in, states_of, entry_at};

    /// No entries.
    pub fn new(alloc: Global) -> RootFsm
        ensures { result ≡ [] }
    {
        RootFsm {
            entries: Vec::new(alloc),
        }
    }

    /// Puts an entry behind the others. An `Err` is want of memory, and leaves all as it was.
    pub fn push(&mut self, entry: EntryFsm) -> Result<(), Memory>
        requires { states_in self.old + states_of entry ≤ 2147483646 }
        ensures { MatchResult result (λ _. self.new ≡ self.old ++ entry ∷ []) (λ _. self.new ≡ self.old) }
    {
        self.entries.push(entry).map_err(|_| Memory)
    }

    /// The machine of the entry of this number, from 1; None exactly where there is no such entry.
    pub fn entry(&self, id: EntryId) -> Option<&EntryFsm>
        ensures entry { option_copied result ≡ entry_at self.now id.0 }
        ensures few { states_in self.now ≤ 2147483646 }
    {
        let entries = &self.entries;
        if id.0 == 0 {
            return None;
        }
        entries.get(id.0 as usize - 1)
    }
}
