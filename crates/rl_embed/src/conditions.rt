// Conditions on transitions.
ghost use Rattle.std.specs.Prelude.{◌≡◌, ◌-◌, ◌^◌, ◌≤◌, false, IfOk};
ghost use Rattle.rl_types.specs.KeyRange.{in_range};
ghost use Rattle.std.specs.Cmp.{unsigned_Decides};
ghost use Rattle.rl_automata.specs.Auto.{holds, when_auto};
ghost use Rattle.rl_automata.specs.Nodes as N;
ghost use Rattle.rl_automata.specs.Nodes.{Node};
ghost use Rattle.rl_explore.specs.Steps.{move_in, is_cycle};
ghost use Rattle.rl_fsm.specs.Builds.{Builds, StandsFor};
ghost use Rattle.rl_fsm.specs.Graphs.{fsm_auto, marks_of};
ghost use Rattle.rl_embed.specs.Guarded.{reads_in, reads_key, marks_at, guarded_auto};

use crate::copies::{copied_marks, no_marks};
use crate::guarded::Guard;
use rl_automata::{Kind, Move};
use rl_explore::{Operator, Step, explore_within};
use rl_fsm::{Edge, Fsm, Marks, look_ups};
use rl_labels::{Carry, Truths};
use rl_types::{CondId, KeyRange, Letter, Memory};
use std::alloc::Global;

// Whether the condition is among the truths.
fn holds(g: &Guard<'_>, truths: u8) -> bool
    ensures { result ≡ holds g.now.cond.0 truths }
{
    (truths >> (g.cond.0 - 1)) % 2 == 1
}

// The set of the condition alone.
fn mask_of(g: &Guard<'_>) -> u8
    ensures { result ≡ 2 ^ (g.now.cond.0 - 1) }
{
    1 << (g.cond.0 - 1)
}

// Whether the edge reads the letter's key.
fn is_at(e: &Edge, at: Letter) -> bool
    ensures { result ≡ in_range at.key e.now.range }
{
    e.range.lo() <= at.key && at.key <= e.range.hi()
}

// Whether one of the edges reads the letter's key.
fn reads_in(edges: &[Edge], at: Letter) -> bool
    ensures { result ≡ reads_in at.key edges.now }
{
    edges.iter().any(|e| is_at(e, at))
}

// Whether some edge of the state reads the letter's key.
fn reads_key(m: &Fsm, state: u32, at: Letter) -> bool
    ensures { result ≡ reads_key m.now state at.key }
{
    match m.state(state) {
        None => false,
        Some(s) => reads_in(s.edges.as_slice(), at),
    }
}

// The actions that stay with the state.
fn marks_at(alloc: Global, m: &Fsm, state: u32) -> Result<Marks, Memory>
    ensures { IfOk result (λ n. n ≡ marks_at m.now state) }
{
    match m.state(state) {
        None => Ok(no_marks(alloc)),
        Some(s) => copied_marks(alloc, &s.marks),
    }
}

impl<'a> Operator for Guard<'a> {
    type Conf = u32;

    ghost auto = { λ g. guarded_auto g.cond.0 g.machine.now };

    ghost jams = { λ g c l. false };

    fn start(&self, _alloc: Global) -> Result<u32, Memory> {
        Ok(self.machine.start())
    }

    fn ranges(&self, alloc: Global, c: &u32) -> Result<Vec<KeyRange>, Memory> {
        let ranges = look_ups::ranges(alloc, self.machine, *c)?;
        Ok(ranges)
    }

    fn asked(&self, c: &u32, at: Letter) -> Truths {
        if !reads_key(self.machine, *c, at) {
            return Truths(0);
        }
        Truths(mask_of(self) | look_ups::asked(self.machine, *c, at).0)
    }

    fn step(&self, alloc: Global, c: &u32, letter: Letter) -> Result<Step<u32>, Memory> {
        if !holds(self, letter.truths) {
            return Ok(Step::Stay);
        }
        match look_ups::step(alloc, self.machine, *c, letter)? {
            None => Ok(Step::Stay),
            Some(m) => Ok(Step::Go(m)),
        }
    }

    fn is_final(&self, c: &u32) -> bool {
        look_ups::is_final(self.machine, *c)
    }

    fn out(&self, alloc: Global, c: &u32) -> Result<Carry, Memory> {
        look_ups::out(alloc, self.machine, *c)
    }

    fn marks(&self, alloc: Global, c: &u32) -> Result<Marks, Memory> {
        let marks = marks_at(alloc, self.machine, *c)?;
        Ok(marks)
    }

    ghost same = { unsigned_Decides };
}

// The most states of a machine.
const MOST: u32 = 2_147_483_646;

/// The machine in which each transition exists only where the condition of this number, 1 to 8, holds (the guide's section
/// 6.5; that conditions are asked as a set is this profile's). Where no transition is left at a key, nothing is asked
/// there. The states that are still reached are numbered anew, as a walk from the start finds them. An `Err` is want of
/// memory, and the machine handed in is gone then.
pub fn guard(alloc: Global, a: Fsm, cond: CondId) -> Result<Fsm, Memory>
    requires first { 1 ≤ cond.0 }
    requires last { cond.0 ≤ 8 }
    ensures builds { IfOk result (λ m. Builds (when_auto cond.0 (fsm_auto a)) m) }
    ensures stands { IfOk result (λ m. (t : Node) → StandsFor t a → StandsFor (N.When t cond.0) m) }
{
    let guard = Guard { machine: &a, cond };
    let Ok(m) = explore_within(alloc, &guard, MOST, u32::MAX) else {
        return Err(Memory);
    };
    Ok(m)
}
