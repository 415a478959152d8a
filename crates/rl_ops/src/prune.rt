// A machine without the steps to states that no word leads from to a final one.
ghost use Rattle.std.specs.Prelude.{◌≡◌, false, List, Bool, IfOk, IfErr, OnOk};
ghost use Rattle.std.specs.Cmp.{unsigned_Decides};
ghost use Rattle.rl_types.specs.Limits.{most_configurations};
ghost use Rattle.rl_automata.specs.declared.tree.Kind.{Kind};
ghost use Rattle.rl_automata.specs.Auto.{pruned, quiet, both_auto, and_auto, minus_auto, both_jams};
ghost use Rattle.rl_automata.specs.Marks.{HasMarks};
ghost use Rattle.rl_automata.specs.Nodes as N;
ghost use Rattle.rl_automata.specs.Nodes.{Node, TellsLive};
ghost use Rattle.rl_automata.specs.Refused.{HasMore};
ghost use Rattle.rl_explore.specs.Numbers.{IsCause, HasNoCause};
ghost use Rattle.rl_explore.specs.Steps.{move_in, is_cycle};
ghost use Rattle.rl_fsm.specs.Builds.{Builds, StandsFor};
ghost use Rattle.rl_fsm.specs.Graphs.{Graph, fsm_auto, marks_of};
ghost use Rattle.rl_ops.specs.Live.{live_at, only_marked};
ghost use Rattle.rl_ops.specs.Tests.{test_of};

use crate::live::{is_live, live_states};
use crate::pair::{Pair, Test};
use rl_explore::{BuildFault, Operator, Step, explore};
use rl_fsm::{Fsm, Marks, look_ups};
use rl_labels::{Carry, Stamped, Truths};
use rl_types::{KeyRange, Letter, Memory};
use std::alloc::Global;

// A machine, and which of its states are marked.
#[derive(Clone, Copy)]
pub struct Pruned<'a> {
    pub m: &'a Fsm,
    pub live: &'a [bool],
}

// The step, where it leads to a marked state.
fn pruned_step(
    alloc: Global,
    p: &Pruned<'_>,
    state: u32,
    letter: Letter,
) -> Result<Step<u32>, Memory>
    ensures step { IfOk result (λ s. move_in s ≡ (only_marked p.now.m.now p.now.live.now).step state letter) }
    ensures cycle { IfOk result (λ s. is_cycle s ≡ false) }
{
    match look_ups::step(alloc, p.m, state, letter)? {
        None => Ok(Step::Stay),
        Some(step) => {
            if is_live(p.live, step.to) {
                Ok(Step::Go(step))
            } else {
                Ok(Step::Stay)
            }
        }
    }
}

// The marks of the state, in memory of their own.
fn copied_marks(alloc: Global, m: &Fsm, state: u32) -> Result<Marks, Memory>
    ensures { IfOk result (λ r. (k : Kind) → marks_of k r ≡ (fsm_auto m.now).marks state k) }
{
    match m.state(state) {
        None => Ok(Marks {
            to: Stamped::new(alloc),
            from: Stamped::new(alloc),
            eof: Stamped::new(alloc),
            error: Stamped::new(alloc),
        }),
        Some(s) => Ok(Marks {
            to: s.marks.to.copy(alloc)?,
            from: s.marks.from.copy(alloc)?,
            eof: s.marks.eof.copy(alloc)?,
            error: s.marks.error.copy(alloc)?,
        }),
    }
}

impl<'a> Operator for Pruned<'a> {
    type Conf = u32;

    ghost auto = { λ p. only_marked p.m.now p.live.now };

    ghost jams = { λ p c l. false };

    fn start(&self, _alloc: Global) -> Result<u32, Memory> {
        Ok(self.m.start())
    }

    fn ranges(&self, alloc: Global, c: &u32) -> Result<Vec<KeyRange>, Memory> {
        let ranges = look_ups::ranges(alloc, self.m, *c)?;
        Ok(ranges)
    }

    fn asked(&self, c: &u32, at: Letter) -> Truths {
        look_ups::asked(self.m, *c, at)
    }

    fn step(&self, alloc: Global, c: &u32, letter: Letter) -> Result<Step<u32>, Memory> {
        let step = pruned_step(alloc, self, *c, letter)?;
        Ok(step)
    }

    fn is_final(&self, c: &u32) -> bool {
        look_ups::is_final(self.m, *c)
    }

    fn out(&self, alloc: Global, c: &u32) -> Result<Carry, Memory> {
        look_ups::out(alloc, self.m, *c)
    }

    fn marks(&self, alloc: Global, c: &u32) -> Result<Marks, Memory> {
        copied_marks(alloc, self.m, *c)
    }

    ghost same = { unsigned_Decides };
}

// The machine without the steps that lead to no final state.
fn prune(alloc: Global, m: &Fsm, most: u32) -> Result<Fsm, BuildFault>
    ensures pruned { IfOk result (λ r. (live : List Bool) × TellsLive (fsm_auto m.now) (live_at live) × Builds (pruned (live_at live) (fsm_auto m.now)) r) }
    ensures refused { IfErr result (λ e. ¬ HasMore (fsm_auto m.now) most_configurations → ¬ HasMore (fsm_auto m.now) most → e ≡ BuildFault.Memory) }
{
    let live = live_states(alloc, m)?;
    let pruned = Pruned { m, live: &live };
    explore(alloc, &pruned, most)
}

// Two machines side by side, without the steps that lead to no final state.
fn pruned_pair(alloc: Global, pair: &Pair<'_>, most: u32) -> Result<Fsm, BuildFault>
    ensures pruned { IfOk result (λ m. (raw : Graph) × (live : List Bool) × Builds (quiet (both_auto (fsm_auto pair.now.a.now) (fsm_auto pair.now.b.now) (test_of pair.now.test))) raw × TellsLive (fsm_auto raw) (live_at live) × Builds (pruned (live_at live) (fsm_auto raw)) m) }
    ensures accepted { OnOk result (HasNoCause (both_auto (fsm_auto pair.now.a.now) (fsm_auto pair.now.b.now) (test_of pair.now.test)) (both_jams (fsm_auto pair.now.a.now) (fsm_auto pair.now.b.now)) most) }
    ensures refused { IfErr result (IsCause (both_auto (fsm_auto pair.now.a.now) (fsm_auto pair.now.b.now) (test_of pair.now.test)) (both_jams (fsm_auto pair.now.a.now) (fsm_auto pair.now.b.now)) most) }
{
    let raw = explore(alloc, pair, most)?;
    let machine = prune(alloc, &raw, most)?;
    Ok(machine)
}

/// The machine of `a & b` (the guide's section 2.5.2). Both operands step together, and the actions of both stand in the
/// result; steps that lead to no final state are left out. The faults are those of `or`, of the machine before steps are
/// left out (this profile).
pub fn and(alloc: Global, a: &Fsm, b: &Fsm, most: u32) -> Result<Fsm, BuildFault>
    ensures stands { IfOk result (λ m. (s t : Node) → StandsFor s a.now → StandsFor t b.now → StandsFor (N.And s t) m) }
    ensures tests { OnOk result ((s t : Node) → StandsFor s a.now → StandsFor t b.now → HasMarks s → HasMarks t → HasMarks (N.And s t)) }
    ensures accepted { OnOk result (HasNoCause (and_auto (fsm_auto a.now) (fsm_auto b.now)) (both_jams (fsm_auto a.now) (fsm_auto b.now)) most) }
    ensures refused { IfErr result (IsCause (and_auto (fsm_auto a.now) (fsm_auto b.now)) (both_jams (fsm_auto a.now) (fsm_auto b.now)) most) }
{
    let pair = Pair {
        a,
        b,
        test: Test::Both,
    };
    pruned_pair(alloc, &pair, most)
}

/// The machine of `a - b` (the guide's section 2.5.3). Both operands step together, and the actions of both stand in the
/// result; steps that lead to no final state are left out. The faults are those of `or`, of the machine before steps are
/// left out (this profile).
pub fn minus(alloc: Global, a: &Fsm, b: &Fsm, most: u32) -> Result<Fsm, BuildFault>
    ensures stands { IfOk result (λ m. (s t : Node) → StandsFor s a.now → StandsFor t b.now → StandsFor (N.Minus s t) m) }
    ensures tests { OnOk result ((s t : Node) → StandsFor s a.now → StandsFor t b.now → HasMarks s → HasMarks t → HasMarks (N.Minus s t)) }
    ensures accepted { OnOk result (HasNoCause (minus_auto (fsm_auto a.now) (fsm_auto b.now)) (both_jams (fsm_auto a.now) (fsm_auto b.now)) most) }
    ensures refused { IfErr result (IsCause (minus_auto (fsm_auto a.now) (fsm_auto b.now)) (both_jams (fsm_auto a.now) (fsm_auto b.now)) most) }
{
    let pair = Pair {
        a,
        b,
        test: Test::FirstAlone,
    };
    pruned_pair(alloc, &pair, most)
}
