// Machines of scanners.
ghost use Rattle.std.specs.Prelude.{◌≡◌, ◌↔◌, IsTrue, None};
ghost use Rattle.std.specs.Option.{option_copied};
ghost use Rattle.rl_fsm.specs.Scanned.{leads_to, token_at, IsLeftForGood, IsScanned};

use crate::edge::Edge;
use crate::fsm::Fsm;
use rl_types::{ActionId, List};
use std::marker::Model;

/// The machine of a scanner (the guide's section 6.3): an `Fsm`, and for each state that is a match the list of the token
/// that ends in it. No edge leads to the start, and the start is no match. Contracts see the machine and the lists.
#[derive(Debug, Drop)]
pub struct ScanFsm {
    machine: Fsm,
    tokens: Vec<Option<List<ActionId>>>,
}

impl Model for ScanFsm {
    ghost use Rattle.rl_fsm.specs.Scanned.{Scanned};

    ghost Value = { Scanned };

    ghost use Rattle.rl_fsm.specs.Scanned.{IsScanned};

    ghost view = { λ s. record { machine = s.machine; tokens = s.tokens.items } };

    ghost invariant = { λ s. IsScanned (record { machine = s.machine; tokens = s.tokens.items }) };
}

// Whether one of the edges leads to the state.
fn leads_to(state: u32, edges: &[Edge]) -> bool
    ensures { result ≡ leads_to state edges.now }
{
    edges.iter().any(|e| e.target == state)
}

// Whether no edge leads to the start.
#[tactic(auto, using(crate::proofs::ScannedLaws::returned, crate::proofs::ScannedLaws::left))]
fn is_left_for_good(machine: &Fsm) -> bool
    ensures { IsTrue result ↔ IsLeftForGood machine.now }
{
    for state in 0..machine.states() {
        if leads_to(machine.start(), machine.edges(state)) {
            return false;
        }
    }
    true
}

// The token list of the state, if it has one.
fn token_at(tokens: &[Option<List<ActionId>>], state: u32) -> Option<&[ActionId]>
    ensures { option_copied result ≡ token_at tokens.now state }
{
    match tokens.get(state as usize) {
        Some(Some(list)) => Some(list.as_slice()),
        _ => None,
    }
}

// Whether the state has no token list.
fn has_none(tokens: &[Option<List<ActionId>>], state: u32) -> bool
    ensures { IsTrue result ↔ (token_at tokens.now state ≡ None) }
{
    match tokens.get(state as usize) {
        Some(Some(_)) => false,
        _ => true,
    }
}

// Whether the machine and the lists make a scanner.
fn is_scanned(machine: &Fsm, tokens: &[Option<List<ActionId>>]) -> bool
    ensures { IsTrue result ↔ IsScanned (record { machine = machine.now; tokens = tokens.now }) }
{
    tokens.len() == machine.states() as usize
        && is_left_for_good(machine)
        && has_none(tokens, machine.start())
}

impl ScanFsm {
    ghost use Rattle.std.specs.Prelude.{◌≡◌, ◌<◌, ◌↔◌, IfSome, IsSome, length};
    ghost use Rattle.std.specs.Option.{option_copied};
    ghost use Rattle.rl_fsm.specs.Scanned.{Scanned, IsScanned, token_at};

    /// The scanner of this machine and these token lists, one for each state; None exactly where there are not as many
    /// lists as states, an edge leads to the start, or the start has a list. It takes no memory.
    pub fn new(machine: Fsm, tokens: Vec<Option<List<ActionId>>>) -> Option<ScanFsm>
        ensures scanned { IsSome result ↔ IsScanned (record { machine = machine; tokens = tokens.items }) }
        ensures parts { IfSome result (λ s. s ≡ record { machine = machine; tokens = tokens.items }) }
    {
        if is_scanned(&machine, &tokens) {
            Some(ScanFsm { machine, tokens })
        } else {
            None
        }
    }

    /// The machine. It takes no memory.
    pub fn machine(&self) -> &Fsm
        ensures machine { result.now ≡ self.now.machine }
        ensures scanned { IsScanned self.now }
    {
        let _ = &self.tokens;
        &self.machine
    }

    /// The token list of the state: its pattern's leaving actions, and then the action of its token. None where the
    /// state is no match. It takes no memory.
    pub fn token(&self, state: u32) -> Option<&[ActionId]>
        requires { state < length self.now.machine.states }
        ensures { option_copied result ≡ token_at self.now.tokens state }
    {
        token_at(&self.tokens, state)
    }
}
