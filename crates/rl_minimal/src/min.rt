// Machines.
use crate::sound::is_minimal;
use crate::state::MinState;
use std::marker::Model;

/// A machine of states with the numbers from 0, as its tables have it (this profile). Contracts see its states, the
/// states of its entries in order, and its least final state.
///
/// State 0 is Error: it is plain, and has no edges and no lists. There are 2 to 2,147,483,647 states, and 1 to
/// 2,147,483,646 entries; the states from `first_final` on are the final ones. The edges of a state ascend by range and
/// then by truths, as those of `Fsm`, and none leads to Error. Plain states lead to plain ones, and a scanner's states
/// to those inside it; a scanner's start alone of its states is final. A scanner's states have no end-of-file and error
/// lists, and matches alone have token lists.
#[derive(Debug, Drop)]
pub struct MinFsm {
    states: Vec<MinState>,
    entries: Vec<u32>,
    first_final: u32,
}

impl Model for MinFsm {
    ghost use Rattle.rl_minimal.specs.Minimal.{Minimal};

    ghost Value = { Minimal };

    ghost use Rattle.rl_minimal.specs.Sound.{IsMinimal};

    ghost view = { λ m. record { states = m.states.items; entries = m.entries.items; first_final = m.first_final } };

    ghost invariant = { λ m. IsMinimal (record { states = m.states.items; entries = m.entries.items; first_final = m.first_final }) };
}

impl MinFsm {
    ghost use Rattle.std.specs.Prelude.{◌≡◌, ◌<◌, ◌↔◌, Some, IfSome, IsSome, length, slice_get};
    ghost use Rattle.rl_minimal.specs.Minimal.{Minimal};
    ghost use Rattle.rl_minimal.specs.Sound.{IsMinimal};

    /// The machine of these states; `entries` has the entries' states in order, and `first_final` is the least final
    /// state. None exactly where they do not make a machine, for what is said of `MinFsm`. It takes no memory.
    pub fn new(states: Vec<MinState>, entries: Vec<u32>, first_final: u32) -> Option<MinFsm>
        ensures minimal { IsSome result
            ↔ IsMinimal (record { states = states.items; entries = entries.items; first_final = first_final }) }
        ensures machine { IfSome result
            (λ m. m ≡ record { states = states.items; entries = entries.items; first_final = first_final }) }
    {
        if is_minimal(&states, &entries, first_final) {
            Some(MinFsm {
                states,
                entries,
                first_final,
            })
        } else {
            None
        }
    }

    /// The state of this number. It takes no memory.
    pub fn state(&self, state: u32) -> &MinState
        requires { state < length self.now.states }
        ensures { slice_get self.now.states state ≡ Some result.now }
    {
        &self.states[state as usize]
    }

    /// The states, by their numbers. It takes no memory.
    pub fn all_states(&self) -> &[MinState]
        ensures { result.now ≡ self.now.states }
    {
        self.states.as_slice()
    }

    /// How many states there are. It takes no memory.
    pub fn states(&self) -> u32
        ensures count { result ≡ length self.now.states }
        ensures minimal { IsMinimal self.now }
    {
        let _ = &self.first_final;
        self.states.len() as u32
    }

    /// The least final state; the number of states where none is final. It takes no memory.
    pub fn first_final(&self) -> u32
        ensures { result ≡ self.now.first_final }
    {
        self.first_final
    }

    /// The entries' states, in order. It takes no memory.
    pub fn entries(&self) -> &[u32]
        ensures { result.now ≡ self.now.entries }
    {
        self.entries.as_slice()
    }
}
