// A machine over and over.
ghost use Rattle.std.specs.Prelude.{◌≡◌, ◌++◌, ◌∷◌, ◌||◌, [], ℕ, map, IfOk, IfErr, OnOk};
ghost use Rattle.std.specs.List.{flat_map, list_any};
ghost use Rattle.std.specs.Ordering.{is_eq, nat_cmp};
ghost use Rattle.std.specs.Cmp.Lexicographic.{slice_cmp};
ghost use Rattle.rl_labels.specs.Labels.{stamps_of};
ghost use Rattle.rl_automata.specs.Auto.{star_auto, star_jams, is_start, round_step, member_steps, only_start, listed, quiet};
ghost use Rattle.rl_automata.specs.Nodes as N;
ghost use Rattle.rl_automata.specs.Nodes.{Node};
ghost use Rattle.rl_explore.specs.Numbers.{IsCause, HasNoCause};
ghost use Rattle.rl_explore.specs.Steps.{move_in, is_cycle};
ghost use Rattle.rl_fsm.specs.Builds.{Builds, StandsFor};
ghost use Rattle.rl_fsm.specs.Graphs.{fsm_auto};
ghost use Rattle.rl_ops.specs.Moves.{rounds_move};
ghost use Rattle.rl_ops.specs.Ranges.{rounds_ranges, round_ranges};
ghost use Rattle.rl_ops.specs.Rounds.{new_moves, new_asks, member_marks};
ghost use Rattle.rl_ops.specs.Same.{members_same};
ghost use Rattle.rl_ops.specs.Settled.{settled};

use crate::all::{any_final, asked_of, outs_of, ranges_of};
use crate::lists::{extend, number_set, push, push_some};
use crate::members::Members;
use crate::settle::settle;
use rl_automata::{Kind, Move};
use rl_explore::{BuildFault, Operator, Step, explore};
use rl_fsm::{Fsm, Marks, look_ups};
use rl_labels::{Carry, Stamp, Stamped, Truths};
use rl_types::{KeyRange, Letter, Memory};
use std::alloc::Global;

// A machine that is repeated, and the major stamp of the actions of a new round.
#[derive(Clone, Copy)]
pub struct Rounds<'a> {
    pub a: &'a Fsm,
    pub base: u32,
}

// The step of a state; that of the start is restamped.
fn round(
    alloc: Global,
    p: &Rounds<'_>,
    state: u32,
    letter: Letter,
) -> Result<Option<Move<u32>>, Memory>
    ensures { IfOk result (λ o. listed o ≡ round_step (fsm_auto p.now.a.now) p.now.base state letter) }
{
    match look_ups::step(alloc, p.a, state, letter)? {
        None => Ok(None),
        Some(step) => {
            if state != p.a.start() {
                return Ok(Some(step));
            }
            let Move { to, carry } = step;
            let carry = carry.restamped(alloc, p.base)?;
            Ok(Some(Move { to, carry }))
        }
    }
}

// The first step of a new round with what the state leaves, where it is final.
fn new_round(
    alloc: Global,
    p: &Rounds<'_>,
    state: u32,
    letter: Letter,
) -> Result<Option<Move<u32>>, Memory>
    ensures { IfOk result (λ o. listed o ≡ new_moves (fsm_auto p.now.a.now) p.now.base letter state) }
{
    if !look_ups::is_final(p.a, state) {
        return Ok(None);
    }
    match round(alloc, p, p.a.start(), letter)? {
        None => Ok(None),
        Some(step) => {
            let leaves = look_ups::out(alloc, p.a, state)?;
            let carry = leaves.with(alloc, &step.carry)?;
            Ok(Some(Move { to: step.to, carry }))
        }
    }
}

// Adds the steps of a member.
fn add_member(
    alloc: Global,
    p: &Rounds<'_>,
    state: u32,
    letter: Letter,
    moves: &mut Vec<Move<u32>>,
) -> Result<(), Memory>
    ensures { IfOk result (λ _. moves.new.items ≡ moves.old.items ++ member_steps (fsm_auto p.now.a.now) p.now.base letter state) }
{
    let step = round(alloc, p, state, letter)?;
    push_some(moves, step)?;
    let again = new_round(alloc, p, state, letter)?;
    push_some(moves, again)?;
    Ok(())
}

// The steps of all members.
fn all_moves(
    alloc: Global,
    p: &Rounds<'_>,
    states: &[u32],
    letter: Letter,
) -> Result<Vec<Move<u32>>, Memory>
    ensures { IfOk result (λ v. v.items ≡ flat_map (member_steps (fsm_auto p.now.a.now) p.now.base letter) states.now) }
{
    let mut moves: Vec<Move<u32>> = Vec::new(alloc);
    for i in states {
        add_member(alloc, p, *i, letter, &mut moves)?;
    }
    Ok(moves)
}

// Whether these are the start alone.
fn is_only(states: &[u32], start: u32) -> bool
    ensures { result ≡ is_eq (slice_cmp nat_cmp states.now (start ∷ [])) }
{
    let only = [start];
    states.cmp(&only[..]).is_eq()
}

// Whether these are the start alone, or one of them is final.
fn is_final(p: &Rounds<'_>, states: &[u32]) -> bool
    ensures { result ≡ (only_start (fsm_auto p.now.a.now) states.now || list_any (fsm_auto p.now.a.now).final states.now) }
{
    is_only(states, p.a.start()) || any_final(p.a, states)
}

// The conditions that the first step of a new round asks, where a member is final.
fn new_asked(p: &Rounds<'_>, states: &[u32], at: Letter) -> Truths
    ensures { result.0 ≡ new_asks (fsm_auto p.now.a.now) at.key states.now }
{
    if any_final(p.a, states) {
        look_ups::asked(p.a, p.a.start(), at)
    } else {
        Truths(0)
    }
}

// The out of the members.
fn rounds_out(alloc: Global, p: &Rounds<'_>, states: &[u32]) -> Result<Carry, Memory>
    ensures { IfOk result (λ o. o ≡ (star_auto (fsm_auto p.now.a.now) p.now.base).out states.now) }
{
    if !is_final(p, states) {
        return Ok(Carry::none(alloc));
    }
    let outs = outs_of(alloc, p.a, states)?;
    Carry::all(alloc, &outs)
}

// The marks of a member, and where it is final those of the start.
fn member_marks(alloc: Global, p: &Rounds<'_>, state: u32, kind: Kind) -> Result<Vec<Stamp>, Memory>
    ensures { IfOk result (λ v. v.items ≡ member_marks (fsm_auto p.now.a.now) kind state) }
{
    let mut marks = Vec::new(alloc);
    extend(&mut marks, look_ups::marks(p.a, state, kind))?;
    if look_ups::is_final(p.a, state) {
        extend(&mut marks, look_ups::marks(p.a, p.a.start(), kind))?;
    }
    Ok(marks)
}

// The marks of all members.
fn all_marks(
    alloc: Global,
    p: &Rounds<'_>,
    states: &[u32],
    kind: Kind,
) -> Result<Vec<Stamp>, Memory>
    ensures { IfOk result (λ v. v.items ≡ flat_map (member_marks (fsm_auto p.now.a.now) kind) states.now) }
{
    let mut marks: Vec<Stamp> = Vec::new(alloc);
    for i in states {
        let more = member_marks(alloc, p, *i, kind)?;
        extend(&mut marks, &more)?;
    }
    Ok(marks)
}

// The set of the marks of all members.
fn rounds_marks(
    alloc: Global,
    p: &Rounds<'_>,
    states: &[u32],
    kind: Kind,
) -> Result<Stamped, Memory>
    ensures { IfOk result (λ s. s ≡ stamps_of (flat_map (member_marks (fsm_auto p.now.a.now) kind) states.now)) }
{
    let marks = all_marks(alloc, p, states, kind)?;
    Stamped::of(alloc, &marks)
}

// The ranges of the start, where a member is final.
fn round_ranges(alloc: Global, p: &Rounds<'_>, states: &[u32]) -> Result<Vec<KeyRange>, Memory>
    ensures { IfOk result (λ v. v.items ≡ round_ranges p.now.a.now states.now) }
{
    if any_final(p.a, states) {
        return look_ups::ranges(alloc, p.a, p.a.start());
    }
    Ok(Vec::new(alloc))
}

// The ranges of all members, and of the start where one of them is final.
fn rounds_ranges(alloc: Global, p: &Rounds<'_>, states: &[u32]) -> Result<Vec<KeyRange>, Memory>
    ensures { IfOk result (λ v. v.items ≡ rounds_ranges p.now.a.now states.now) }
{
    let mut ranges = ranges_of(alloc, p.a, states)?;
    let more = round_ranges(alloc, p, states)?;
    extend(&mut ranges, &more)?;
    Ok(ranges)
}

// What the members do on the letter.
fn rounds_step(
    alloc: Global,
    p: &Rounds<'_>,
    states: &[u32],
    letter: Letter,
) -> Result<Step<Members>, Memory>
    ensures step { IfOk result (λ s. move_in s ≡ rounds_move (settled [] (flat_map (member_steps (fsm_auto p.now.a.now) p.now.base letter) states.now))) }
    ensures cycle { IfOk result (λ s. is_cycle s ≡ star_jams (fsm_auto p.now.a.now) p.now.base states.now letter) }
{
    let lefts: Vec<Move<u32>> = Vec::new(alloc);
    let rights = all_moves(alloc, p, states, letter)?;
    match settle(alloc, &lefts, &rights)? {
        Step::Stay => Ok(Step::Stay),
        Step::Cycle => Ok(Step::Cycle),
        Step::Go(m) => {
            let members = number_set(alloc, m.to.1.as_slice())?;
            let to = Members::of(members);
            Ok(Step::Go(Move { to, carry: m.carry }))
        }
    }
}

impl<'a> Operator for Rounds<'a> {
    type Conf = Members;

    ghost auto = { λ p. star_auto (fsm_auto p.a.now) p.base };

    ghost jams = { λ p c l. star_jams (fsm_auto p.a.now) p.base c l };

    fn start(&self, alloc: Global) -> Result<Members, Memory> {
        let mut states = Vec::new(alloc);
        push(&mut states, self.a.start())?;
        Ok(Members::of(states))
    }

    fn ranges(&self, alloc: Global, c: &Members) -> Result<Vec<KeyRange>, Memory> {
        let ranges = rounds_ranges(alloc, self, c.states())?;
        Ok(ranges)
    }

    fn asked(&self, c: &Members, at: Letter) -> Truths {
        Truths(asked_of(self.a, c.states(), at).0 | new_asked(self, c.states(), at).0)
    }

    fn step(&self, alloc: Global, c: &Members, letter: Letter) -> Result<Step<Members>, Memory> {
        let step = rounds_step(alloc, self, c.states(), letter)?;
        Ok(step)
    }

    fn is_final(&self, c: &Members) -> bool {
        is_final(self, c.states())
    }

    fn out(&self, alloc: Global, c: &Members) -> Result<Carry, Memory> {
        rounds_out(alloc, self, c.states())
    }

    fn marks(&self, alloc: Global, c: &Members) -> Result<Marks, Memory> {
        Ok(Marks {
            to: rounds_marks(alloc, self, c.states(), Kind::To)?,
            from: rounds_marks(alloc, self, c.states(), Kind::From)?,
            eof: rounds_marks(alloc, self, c.states(), Kind::Eof)?,
            error: rounds_marks(alloc, self, c.states(), Kind::Error)?,
        })
    }

    ghost same = { members_same };
}

/// The machine of `a*` (the guide's section 2.5.6). A new round begins where a member is final, with what that member
/// leaves; the actions of steps out of the start get the major stamp `base`, so that on a wrap leaving actions come before
/// entering ones (this profile). All candidates are cut as one set. `L6` comes exactly where more than 32,767
/// configurations are reached, else `L8` exactly where more than `most` are, and else `F15` exactly where the candidates of
/// one of them are a cycle of priorities; `Memory` is want of memory.
pub fn star(alloc: Global, a: &Fsm, base: u32, most: u32) -> Result<Fsm, BuildFault>
    ensures builds { IfOk result (λ m. Builds (quiet (star_auto (fsm_auto a.now) base)) m) }
    ensures stands { IfOk result (λ m. (s : Node) → StandsFor s a.now → StandsFor (N.Star s base) m) }
    ensures accepted { OnOk result (HasNoCause (star_auto (fsm_auto a.now) base) (star_jams (fsm_auto a.now) base) most) }
    ensures refused { IfErr result (IsCause (star_auto (fsm_auto a.now) base) (star_jams (fsm_auto a.now) base) most) }
{
    let rounds = Rounds { a, base };
    explore(alloc, &rounds, most)
}
