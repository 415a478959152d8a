// Two machines side by side.
ghost use Rattle.std.specs.Prelude.{◌≡◌, ◌++◌, ℕ, IfOk, IfErr, OnOk};
ghost use Rattle.rl_labels.specs.Labels.{stamps_of};
ghost use Rattle.rl_automata.specs.Auto.{both_auto, union_auto, both_jams, part_moves, quiet};
ghost use Rattle.rl_automata.specs.Nodes as N;
ghost use Rattle.rl_automata.specs.Nodes.{Node};
ghost use Rattle.rl_explore.specs.Numbers.{IsCause, HasNoCause};
ghost use Rattle.rl_explore.specs.Steps.{move_in, is_cycle};
ghost use Rattle.rl_fsm.specs.Builds.{Builds, StandsFor};
ghost use Rattle.rl_fsm.specs.Graphs.{fsm_auto};
ghost use Rattle.rl_ops.specs.Moves.{pair_move};
ghost use Rattle.rl_ops.specs.Ranges.{pair_ranges};
ghost use Rattle.rl_ops.specs.Settled.{settled};
ghost use Rattle.rl_automata.specs.Auto.{first, jams};
ghost use Rattle.rl_ops.specs.Same.{pair_same};
ghost use Rattle.rl_ops.specs.Tests.{test_of};

use crate::lists::{chained, extend};
use crate::parts::{part_asked, part_final, part_marks, part_moves, part_out, part_ranges};
use crate::settle::{Sides, settle};
use rl_automata::{Kind, Move};
use rl_explore::{BuildFault, Operator, Step, explore};
use rl_fsm::{Fsm, Marks};
use rl_labels::{Carry, Stamped, Truths};
use rl_types::{KeyRange, Letter, Memory};
use std::alloc::Global;

/// When the whole is final.
#[derive(Clone, Copy, Debug, PartialEq, Eq)]
pub enum Test {
    Either,
    Both,
    FirstAlone,
}

// Two machines, and when the two together are final.
#[derive(Clone, Copy)]
pub struct Pair<'a> {
    pub a: &'a Fsm,
    pub b: &'a Fsm,
    pub test: Test,
}

// The parts of the two, where they are there.
type Parts = (Option<u32>, Option<u32>);

fn is_so(test: Test, a: bool, b: bool) -> bool
    ensures { result ≡ test_of test a b }
{
    match test {
        Test::Either => a || b,
        Test::Both => a && b,
        Test::FirstAlone => a && !b,
    }
}

// The first number, if there is one.
pub fn first_of(numbers: &[u32]) -> Option<u32>
    ensures { result ≡ first numbers.now }
{
    match numbers {
        [] => None,
        [x, ..] => Some(*x),
    }
}

// What the two parts do on the letter.
fn pair_step(alloc: Global, p: &Pair<'_>, c: &Parts, letter: Letter) -> Result<Step<Parts>, Memory>
    ensures step { IfOk result (λ s. move_in s ≡ pair_move (settled (part_moves (fsm_auto p.now.a.now) letter c.now.0) (part_moves (fsm_auto p.now.b.now) letter c.now.1))) }
    ensures cycle { IfOk result (λ s. is_cycle s ≡ jams (part_moves (fsm_auto p.now.a.now) letter c.now.0) (part_moves (fsm_auto p.now.b.now) letter c.now.1)) }
{
    let lefts = part_moves(alloc, p.a, c.0, letter)?;
    let rights = part_moves(alloc, p.b, c.1, letter)?;
    match settle(alloc, &lefts, &rights)? {
        Step::Stay => Ok(Step::Stay),
        Step::Cycle => Ok(Step::Cycle),
        Step::Go(m) => {
            let to = (first_of(m.to.0.as_slice()), first_of(m.to.1.as_slice()));
            Ok(Step::Go(Move { to, carry: m.carry }))
        }
    }
}

// The marks of the kind of the two parts.
fn pair_marks(alloc: Global, p: &Pair<'_>, c: &Parts, kind: Kind) -> Result<Stamped, Memory>
    ensures { IfOk result (λ s. s ≡ (both_auto (fsm_auto p.now.a.now) (fsm_auto p.now.b.now) (test_of p.now.test)).marks c.now kind) }
{
    let marks = chained(
        alloc,
        part_marks(p.a, c.0, kind),
        part_marks(p.b, c.1, kind),
    )?;
    Stamped::of(alloc, &marks)
}

// The ranges of the two parts.
fn pair_ranges(alloc: Global, p: &Pair<'_>, c: &Parts) -> Result<Vec<KeyRange>, Memory>
    ensures { IfOk result (λ v. v.items ≡ pair_ranges p.now.a.now p.now.b.now c.now) }
{
    let mut ranges = part_ranges(alloc, p.a, c.0)?;
    let more = part_ranges(alloc, p.b, c.1)?;
    extend(&mut ranges, &more)?;
    Ok(ranges)
}

impl<'a> Operator for Pair<'a> {
    type Conf = (Option<u32>, Option<u32>);

    ghost auto = { λ p. both_auto (fsm_auto p.a.now) (fsm_auto p.b.now) (test_of p.test) };

    ghost jams = { λ p c l. both_jams (fsm_auto p.a.now) (fsm_auto p.b.now) c l };

    fn start(&self, _alloc: Global) -> Result<(Option<u32>, Option<u32>), Memory> {
        Ok((Some(self.a.start()), Some(self.b.start())))
    }

    fn ranges(
        &self,
        alloc: Global,
        c: &(Option<u32>, Option<u32>),
    ) -> Result<Vec<KeyRange>, Memory> {
        let ranges = pair_ranges(alloc, self, c)?;
        Ok(ranges)
    }

    fn asked(&self, c: &(Option<u32>, Option<u32>), at: Letter) -> Truths {
        Truths(part_asked(self.a, c.0, at).0 | part_asked(self.b, c.1, at).0)
    }

    fn step(
        &self,
        alloc: Global,
        c: &(Option<u32>, Option<u32>),
        letter: Letter,
    ) -> Result<Step<(Option<u32>, Option<u32>)>, Memory> {
        let step = pair_step(alloc, self, c, letter)?;
        Ok(step)
    }

    fn is_final(&self, c: &(Option<u32>, Option<u32>)) -> bool {
        is_so(self.test, part_final(self.a, c.0), part_final(self.b, c.1))
    }

    fn out(&self, alloc: Global, c: &(Option<u32>, Option<u32>)) -> Result<Carry, Memory> {
        if !self.is_final(c) {
            return Ok(Carry::none(alloc));
        }
        let a = part_out(alloc, self.a, c.0)?;
        let b = part_out(alloc, self.b, c.1)?;
        a.with(alloc, &b)
    }

    fn marks(&self, alloc: Global, c: &(Option<u32>, Option<u32>)) -> Result<Marks, Memory> {
        Ok(Marks {
            to: pair_marks(alloc, self, c, Kind::To)?,
            from: pair_marks(alloc, self, c, Kind::From)?,
            eof: pair_marks(alloc, self, c, Kind::Eof)?,
            error: pair_marks(alloc, self, c, Kind::Error)?,
        })
    }

    ghost same = { pair_same };
}

/// The machine of `a | b` (the guide's section 2.5.1). At a letter the candidates of both are cut as one set, and what is
/// left is joined (this profile). `L6` comes exactly where more than 32,767 configurations are reached, else `L8` exactly
/// where more than `most` are, and else `F15` exactly where the candidates of one of them are a cycle of priorities;
/// `Memory` is want of memory.
pub fn or(alloc: Global, a: &Fsm, b: &Fsm, most: u32) -> Result<Fsm, BuildFault>
    ensures builds { IfOk result (λ m. Builds (quiet (union_auto (fsm_auto a.now) (fsm_auto b.now))) m) }
    ensures stands { IfOk result (λ m. (s t : Node) → StandsFor s a.now → StandsFor t b.now → StandsFor (N.Union s t) m) }
    ensures accepted { OnOk result (HasNoCause (union_auto (fsm_auto a.now) (fsm_auto b.now)) (both_jams (fsm_auto a.now) (fsm_auto b.now)) most) }
    ensures refused { IfErr result (IsCause (union_auto (fsm_auto a.now) (fsm_auto b.now)) (both_jams (fsm_auto a.now) (fsm_auto b.now)) most) }
{
    let pair = Pair {
        a,
        b,
        test: Test::Either,
    };
    explore(alloc, &pair, most)
}
