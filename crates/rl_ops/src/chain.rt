// One machine and then another.
ghost use Rattle.std.specs.Prelude.{◌≡◌, ◌++◌, ◌∷◌, [], ℕ, List, Option, map, IfOk, IfErr, OnOk};
ghost use Rattle.rl_labels.specs.Carries.{all_of, no_carry};
ghost use Rattle.rl_automata.specs.Auto.{cat_auto, cat_jams, chain_final, left_final, right_moves, part_moves, next, on_part, listed, carrying, jams, quiet};
ghost use Rattle.rl_automata.specs.Nodes as N;
ghost use Rattle.rl_automata.specs.Nodes.{Node};
ghost use Rattle.rl_explore.specs.Numbers.{IsCause, HasNoCause};
ghost use Rattle.rl_explore.specs.Steps.{move_in, is_cycle};
ghost use Rattle.rl_fsm.specs.Builds.{Builds, StandsFor};
ghost use Rattle.rl_fsm.specs.Graphs.{fsm_auto};
ghost use Rattle.rl_ops.specs.Moves.{chain_move};
ghost use Rattle.rl_ops.specs.Ranges.{chain_ranges, next_ranges};
ghost use Rattle.rl_ops.specs.Rounds.{next_moves};
ghost use Rattle.rl_ops.specs.Same.{chain_same};
ghost use Rattle.rl_ops.specs.Settled.{settled};

use crate::all::{any_final, asked_of, marks_of, outs_of, ranges_of, steps_of};
use crate::lists::{extend, number_set, push, push_some};
use crate::members::Members;
use crate::pair::first_of;
use crate::parts::{part_asked, part_final, part_marks, part_moves, part_out, part_ranges};
use crate::settle::settle;
use rl_automata::{Kind, Move};
use rl_explore::{BuildFault, Operator, Step, explore};
use rl_fsm::{Fsm, Marks, look_ups};
use rl_labels::{Carry, Stamped, Truths};
use rl_types::{KeyRange, Letter, Memory};
use std::alloc::Global;

// Two machines, the one behind the other.
#[derive(Clone, Copy)]
pub struct Chained<'a> {
    pub a: &'a Fsm,
    pub b: &'a Fsm,
}

// The part of the first machine, and those of the second that were begun.
type Links = (Option<u32>, Members);

// The first step of the second machine with what the first one leaves, where the part of the first is final.
fn next_step(
    alloc: Global,
    p: &Chained<'_>,
    left: Option<u32>,
    letter: Letter,
) -> Result<Option<Move<u32>>, Memory>
    ensures { IfOk result (λ o. listed o ≡ next_moves (fsm_auto p.now.a.now) (fsm_auto p.now.b.now) left letter) }
{
    if !part_final(p.a, left) {
        return Ok(None);
    }
    match look_ups::step(alloc, p.b, p.b.start(), letter)? {
        None => Ok(None),
        Some(step) => {
            let leaves = part_out(alloc, p.a, left)?;
            let carry = leaves.with(alloc, &step.carry)?;
            Ok(Some(Move { to: step.to, carry }))
        }
    }
}

// The candidates of the second machine.
fn right_moves(
    alloc: Global,
    p: &Chained<'_>,
    left: Option<u32>,
    right: &[u32],
    letter: Letter,
) -> Result<Vec<Move<u32>>, Memory>
    ensures { IfOk result (λ v. v.items ≡ right_moves (fsm_auto p.now.a.now) (fsm_auto p.now.b.now) (left, right.now) letter) }
{
    let mut moves = steps_of(alloc, p.b, right, letter)?;
    let step = next_step(alloc, p, left, letter)?;
    push_some(&mut moves, step)?;
    Ok(moves)
}

// Whether a part of the second machine is final, or the first one's where the second may be empty.
fn is_final(p: &Chained<'_>, left: Option<u32>, right: &[u32]) -> bool
    ensures { result ≡ chain_final (fsm_auto p.now.a.now) (fsm_auto p.now.b.now) (left, right.now) }
{
    any_final(p.b, right) || (part_final(p.a, left) && look_ups::is_final(p.b, p.b.start()))
}

// The conditions that the first step of the second machine asks, where the part of the first is final.
fn next_asked(p: &Chained<'_>, left: Option<u32>, at: Letter) -> Truths
    ensures { result.0 ≡ next (fsm_auto p.now.a.now) (fsm_auto p.now.b.now) (left, []) ((fsm_auto p.now.b.now).asked p.now.b.now.start at.key) 0 }
{
    if part_final(p.a, left) {
        look_ups::asked(p.b, p.b.start(), at)
    } else {
        Truths(0)
    }
}

// The out of the final parts.
fn chain_out(
    alloc: Global,
    p: &Chained<'_>,
    left: Option<u32>,
    right: &[u32],
) -> Result<Carry, Memory>
    ensures { IfOk result (λ o. o ≡ (cat_auto (fsm_auto p.now.a.now) (fsm_auto p.now.b.now)).out (left, right.now)) }
{
    if !is_final(p, left, right) {
        return Ok(Carry::none(alloc));
    }
    let mut outs = outs_of(alloc, p.b, right)?;
    if part_final(p.a, left) && look_ups::is_final(p.b, p.b.start()) {
        push(&mut outs, part_out(alloc, p.a, left)?)?;
        push(&mut outs, look_ups::out(alloc, p.b, p.b.start())?)?;
    }
    Carry::all(alloc, &outs)
}

// The marks of the second machine's start, where the part of the first is final.
fn next_marks<'a>(p: &Chained<'a>, left: Option<u32>, kind: Kind) -> &'a [rl_labels::Stamp]
    ensures { result.now ≡ next (fsm_auto p.now.a.now) (fsm_auto p.now.b.now) (left, []) ((fsm_auto p.now.b.now).marks p.now.b.now.start kind) [] }
{
    if part_final(p.a, left) {
        look_ups::marks(p.b, p.b.start(), kind)
    } else {
        &[]
    }
}

// The marks of the kind of all parts.
fn chain_marks(
    alloc: Global,
    p: &Chained<'_>,
    left: Option<u32>,
    right: &[u32],
    kind: Kind,
) -> Result<Stamped, Memory>
    ensures { IfOk result (λ s. s ≡ (cat_auto (fsm_auto p.now.a.now) (fsm_auto p.now.b.now)).marks (left, right.now) kind) }
{
    let mut rights = marks_of(alloc, p.b, right, kind)?;
    extend(&mut rights, next_marks(p, left, kind))?;
    let mut marks = Vec::new(alloc);
    extend(&mut marks, part_marks(p.a, left, kind))?;
    extend(&mut marks, &rights)?;
    Stamped::of(alloc, &marks)
}

// The ranges of the second machine's start, where the part of the first is final.
fn next_ranges(alloc: Global, p: &Chained<'_>, left: Option<u32>) -> Result<Vec<KeyRange>, Memory>
    ensures { IfOk result (λ v. v.items ≡ next_ranges p.now.a.now p.now.b.now left) }
{
    if part_final(p.a, left) {
        return look_ups::ranges(alloc, p.b, p.b.start());
    }
    Ok(Vec::new(alloc))
}

// The ranges of all parts.
fn chain_ranges(
    alloc: Global,
    p: &Chained<'_>,
    left: Option<u32>,
    right: &[u32],
) -> Result<Vec<KeyRange>, Memory>
    ensures { IfOk result (λ v. v.items ≡ chain_ranges p.now.a.now p.now.b.now (left, right.now)) }
{
    let mut rights = ranges_of(alloc, p.b, right)?;
    let more = next_ranges(alloc, p, left)?;
    extend(&mut rights, &more)?;
    let mut ranges = part_ranges(alloc, p.a, left)?;
    extend(&mut ranges, &rights)?;
    Ok(ranges)
}

// What the parts do on the letter.
fn chain_step(
    alloc: Global,
    p: &Chained<'_>,
    left: Option<u32>,
    right: &[u32],
    letter: Letter,
) -> Result<Step<Links>, Memory>
    ensures step { IfOk result (λ s. move_in s ≡ chain_move (settled (part_moves (fsm_auto p.now.a.now) letter left) (right_moves (fsm_auto p.now.a.now) (fsm_auto p.now.b.now) (left, right.now) letter))) }
    ensures cycle { IfOk result (λ s. is_cycle s ≡ jams (part_moves (fsm_auto p.now.a.now) letter left) (right_moves (fsm_auto p.now.a.now) (fsm_auto p.now.b.now) (left, right.now) letter)) }
{
    let lefts = part_moves(alloc, p.a, left, letter)?;
    let rights = right_moves(alloc, p, left, right, letter)?;
    match settle(alloc, &lefts, &rights)? {
        Step::Stay => Ok(Step::Stay),
        Step::Cycle => Ok(Step::Cycle),
        Step::Go(m) => {
            let begun = number_set(alloc, m.to.1.as_slice())?;
            let to = (first_of(m.to.0.as_slice()), Members::of(begun));
            Ok(Step::Go(Move { to, carry: m.carry }))
        }
    }
}

impl<'a> Operator for Chained<'a> {
    type Conf = (Option<u32>, Members);

    ghost auto = { λ p. cat_auto (fsm_auto p.a.now) (fsm_auto p.b.now) };

    ghost jams = { λ p c l. cat_jams (fsm_auto p.a.now) (fsm_auto p.b.now) c l };

    fn start(&self, alloc: Global) -> Result<(Option<u32>, Members), Memory> {
        Ok((Some(self.a.start()), Members::of(Vec::new(alloc))))
    }

    fn ranges(&self, alloc: Global, c: &(Option<u32>, Members)) -> Result<Vec<KeyRange>, Memory> {
        let ranges = chain_ranges(alloc, self, c.0, c.1.states())?;
        Ok(ranges)
    }

    fn asked(&self, c: &(Option<u32>, Members), at: Letter) -> Truths {
        let rights = asked_of(self.b, c.1.states(), at).0 | next_asked(self, c.0, at).0;
        Truths(part_asked(self.a, c.0, at).0 | rights)
    }

    fn step(
        &self,
        alloc: Global,
        c: &(Option<u32>, Members),
        letter: Letter,
    ) -> Result<Step<(Option<u32>, Members)>, Memory> {
        let step = chain_step(alloc, self, c.0, c.1.states(), letter)?;
        Ok(step)
    }

    fn is_final(&self, c: &(Option<u32>, Members)) -> bool {
        is_final(self, c.0, c.1.states())
    }

    fn out(&self, alloc: Global, c: &(Option<u32>, Members)) -> Result<Carry, Memory> {
        chain_out(alloc, self, c.0, c.1.states())
    }

    fn marks(&self, alloc: Global, c: &(Option<u32>, Members)) -> Result<Marks, Memory> {
        Ok(Marks {
            to: chain_marks(alloc, self, c.0, c.1.states(), Kind::To)?,
            from: chain_marks(alloc, self, c.0, c.1.states(), Kind::From)?,
            eof: chain_marks(alloc, self, c.0, c.1.states(), Kind::Eof)?,
            error: chain_marks(alloc, self, c.0, c.1.states(), Kind::Error)?,
        })
    }

    ghost same = { chain_same };
}

/// The machine of `a . b` (the guide's section 2.5.5). Where `a` may end, the first step of `b` carries what `a` leaves;
/// all candidates are cut as one set (this profile). `L6` comes exactly where more than 32,767 configurations are
/// reached, else `L8` exactly where more than `most` are, and else `F15` exactly where the candidates of one of them are a
/// cycle of priorities; `Memory` is want of memory.
pub fn cat(alloc: Global, a: &Fsm, b: &Fsm, most: u32) -> Result<Fsm, BuildFault>
    ensures builds { IfOk result (λ m. Builds (quiet (cat_auto (fsm_auto a.now) (fsm_auto b.now))) m) }
    ensures stands { IfOk result (λ m. (s t : Node) → StandsFor s a.now → StandsFor t b.now → StandsFor (N.Cat s t) m) }
    ensures accepted { OnOk result (HasNoCause (cat_auto (fsm_auto a.now) (fsm_auto b.now)) (cat_jams (fsm_auto a.now) (fsm_auto b.now)) most) }
    ensures refused { IfErr result (IsCause (cat_auto (fsm_auto a.now) (fsm_auto b.now)) (cat_jams (fsm_auto a.now) (fsm_auto b.now)) most) }
{
    let chained = Chained { a, b };
    explore(alloc, &chained, most)
}
