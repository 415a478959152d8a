// Machines.
use crate::edge::Edge;
use crate::look_ups::asks_at;
use crate::made::{point_states, set_states};
use crate::sound::is_sound;
use crate::state::{Marks, Out, State};
use rl_labels::Truths;
use rl_types::{Key, KeyRange, Letter, Memory};
use std::alloc::Global;
use std::marker::Model;

/// A machine of states with the numbers from 0: at each state at most one edge takes a letter. Contracts see its states
/// and the number of its start. There are at most 2,147,483,646 states, and the start and the targets of edges are
/// among them. The edges of a state ascend by range and then by truths; two ranges are equal or disjoint; edges of
/// equal ranges ask the same conditions and have different truths; and truths are among what is asked.
#[derive(Debug, Drop)]
pub struct Fsm {
    start: u32,
    states: Vec<State>,
}

impl Model for Fsm {
    ghost use Rattle.rl_fsm.specs.Graphs.{Graph};

    ghost Value = { Graph };

    ghost use Rattle.rl_fsm.specs.Sound.{IsSound};

    ghost view = { λ m. record { start = m.start; states = m.states.items } };

    ghost invariant = { λ m. IsSound (record { start = m.start; states = m.states.items }) };
}

impl Fsm {
    ghost use Rattle.std.specs.Prelude.{◌≡◌, ◌<◌, ◌↔◌, IfOk, IfSome, IsSome, length};
    ghost use Rattle.rl_automata.specs.declared.tree.Kind.{Kind};
    ghost use Rattle.rl_automata.specs.Nodes as N;
    ghost use Rattle.std.specs.Option.{option_copied};
    ghost use Rattle.rl_fsm.specs.Graphs.{fsm_auto, state_at, edges_at, carry_out, marks_of};
    ghost use Rattle.rl_fsm.specs.Sound.{IsSound};
    ghost use Rattle.rl_fsm.specs.Builds.{StandsFor};

    /// The machine of these states, which begins in the state of number `start`; None exactly where they do not make a
    /// machine, for what is said of `Fsm`.
    pub fn new(start: u32, states: Vec<State>) -> Option<Fsm>
        ensures sound { IsSome result ↔ IsSound (record { start = start; states = states.items }) }
        ensures machine { IfSome result (λ m. m ≡ record { start = start; states = states.items }) }
    {
        if is_sound(start, &states) {
            Some(Fsm { start, states })
        } else {
            None
        }
    }

    /// The number of the start.
    pub fn start(&self) -> u32
        ensures number { result ≡ self.now.start }
        ensures there { result < length self.now.states }
    {
        let _ = &self.states;
        self.start
    }

    /// How many states there are.
    pub fn states(&self) -> u32
        ensures count { result ≡ length self.now.states }
        ensures sound { IsSound self.now }
    {
        let _ = &self.start;
        self.states.len() as u32
    }

    /// The state of this number; None where there is none.
    pub fn state(&self, state: u32) -> Option<&State>
        ensures { option_copied result ≡ state_at self.now state }
    {
        self.states.get(state as usize)
    }

    /// Whether the state is final.
    pub fn is_final(&self, state: u32) -> bool
        requires { state < length self.now.states }
        ensures { result ≡ (fsm_auto self.now).final state }
    {
        self.states[state as usize].fin
    }

    /// The edges of the state.
    pub fn edges(&self, state: u32) -> &[Edge]
        requires { state < length self.now.states }
        ensures { result.now ≡ edges_at self.now state }
    {
        self.states[state as usize].edges.as_slice()
    }

    /// The conditions that the state asks at the key.
    pub fn asked(&self, state: u32, key: Key) -> Truths
        requires { state < length self.now.states }
        ensures { result.0 ≡ (fsm_auto self.now).asked state key.0 }
    {
        let at = Letter {
            key: key.0,
            truths: 0,
        };
        asks_at(self.states[state as usize].edges.as_slice(), at)
    }

    /// What the state puts on the steps that leave it.
    pub fn out(&self, state: u32) -> &Out
        requires { state < length self.now.states }
        ensures { carry_out result.now ≡ (fsm_auto self.now).out state }
    {
        &self.states[state as usize].out
    }

    /// The actions that stay with the state.
    pub fn marks(&self, state: u32) -> &Marks
        requires { state < length self.now.states }
        ensures { (kind : Kind) → marks_of kind result.now ≡ (fsm_auto self.now).marks state kind }
    {
        &self.states[state as usize].marks
    }

    /// The machine of one character whose key is in one of the ranges (the guide's section 2.3). An `Err` is want of
    /// memory.
    pub fn of_set(alloc: Global, set: &[KeyRange]) -> Result<Fsm, Memory>
        ensures { IfOk result (λ m. StandsFor (N.Set set.now) m) }
    {
        let states = set_states(alloc, set)?;
        Ok(Fsm { start: 0, states })
    }

    /// The machine of the empty word. An `Err` is want of memory.
    pub fn of_null(alloc: Global) -> Result<Fsm, Memory>
        ensures { IfOk result (λ m. StandsFor N.Null m) }
    {
        let states = point_states(alloc, true)?;
        Ok(Fsm { start: 0, states })
    }

    /// The machine of no word. An `Err` is want of memory.
    pub fn of_nothing(alloc: Global) -> Result<Fsm, Memory>
        ensures { IfOk result (λ m. StandsFor N.Nothing m) }
    {
        let states = point_states(alloc, false)?;
        Ok(Fsm { start: 0, states })
    }
}
