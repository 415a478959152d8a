// Candidates for a step, cut as one set.
ghost use Rattle.std.specs.Prelude.{◌≡◌, ◌++◌, ◌&&◌, not, [], ◌∷◌, IfOk};
ghost use Rattle.rl_automata.specs.Auto.{carries, targets, kept, is_none_left, jams, step_to};
ghost use Rattle.rl_explore.specs.Steps.{move_in, is_cycle};
ghost use Rattle.rl_ops.specs.Settled.{all_carries, is_beaten, settled};

use crate::lists::push;
use rl_automata::Move;
use rl_explore::Step;
use rl_labels::Carry;
use rl_types::Memory;
use std::alloc::Global;

// The targets on two sides.
pub type Sides = (rl_types::List<u32>, rl_types::List<u32>);

// Whether one of the candidates beats this one.
fn beats_it(moves: &[Move<u32>], c: &Carry) -> bool
    ensures { result ≡ is_beaten (carries moves.now) c.now }
{
    for m in moves {
        if m.carry.table.beats(&c.table) {
            return true;
        }
    }
    false
}

// Whether a candidate of either side beats this one.
fn is_beaten(lefts: &[Move<u32>], rights: &[Move<u32>], c: &Carry) -> bool
    ensures { result ≡ is_beaten (all_carries lefts.now rights.now) c.now }
{
    beats_it(lefts, c) || beats_it(rights, c)
}

// Adds the candidate's target and what it carries, unless it is beaten.
fn keep_one(
    alloc: Global,
    m: &Move<u32>,
    lefts: &[Move<u32>],
    rights: &[Move<u32>],
    to: &mut Vec<u32>,
    parts: &mut Vec<Carry>,
) -> Result<(), Memory>
    ensures to { IfOk result (λ _. to.new.items ≡ to.old.items ++ targets (kept (all_carries lefts.now rights.now) (m.now ∷ []))) }
    ensures parts { IfOk result (λ _. parts.new.items ≡ parts.old.items ++ carries (kept (all_carries lefts.now rights.now) (m.now ∷ []))) }
{
    if is_beaten(lefts, rights, &m.carry) {
        return Ok(());
    }
    let carry = m.carry.copy(alloc)?;
    push(to, m.to)?;
    push(parts, carry)?;
    Ok(())
}

// Adds the targets of those that none beats, and what they carry.
fn keep(
    alloc: Global,
    moves: &[Move<u32>],
    lefts: &[Move<u32>],
    rights: &[Move<u32>],
    to: &mut Vec<u32>,
    parts: &mut Vec<Carry>,
) -> Result<(), Memory>
    ensures to { IfOk result (λ _. to.new.items ≡ to.old.items ++ targets (kept (all_carries lefts.now rights.now) moves.now)) }
    ensures parts { IfOk result (λ _. parts.new.items ≡ parts.old.items ++ carries (kept (all_carries lefts.now rights.now) moves.now)) }
{
    for m in moves {
        keep_one(alloc, m, lefts, rights, to, parts)?;
    }
    Ok(())
}

// Whether there is no candidate on this side.
fn is_none(moves: &[Move<u32>]) -> bool
    ensures { result ≡ is_none_left (carries moves.now) }
{
    match moves {
        [] => true,
        [_, ..] => false,
    }
}

// Whether there is no candidate.
#[tactic(auto, using(crate::proofs::Keeping::none_both))]
fn are_none(lefts: &[Move<u32>], rights: &[Move<u32>]) -> bool
    ensures { result ≡ is_none_left (all_carries lefts.now rights.now) }
{
    is_none(lefts) && is_none(rights)
}

// The step of what was kept; where nothing was, whether there were candidates tells a cycle.
fn step_of(
    alloc: Global,
    none: bool,
    lefts: Vec<u32>,
    rights: Vec<u32>,
    parts: Vec<Carry>,
) -> Result<Step<Sides>, Memory>
    ensures step { IfOk result (λ s. move_in s ≡ step_to (lefts.items, rights.items) parts.items) }
    ensures cycle { IfOk result (λ s. is_cycle s ≡ (not none && is_none_left parts.items)) }
{
    if parts.is_empty() {
        return Ok(if none { Step::Stay } else { Step::Cycle });
    }
    let carry = Carry::all(alloc, &parts)?;
    let to = (
        rl_types::List::from_vec(lefts),
        rl_types::List::from_vec(rights),
    );
    Ok(Step::Go(Move { to, carry }))
}

// What the candidates of two sides make together.
pub fn settle(
    alloc: Global,
    lefts: &[Move<u32>],
    rights: &[Move<u32>],
) -> Result<Step<Sides>, Memory>
    ensures step { IfOk result (λ s. move_in s ≡ settled lefts.now rights.now) }
    ensures cycle { IfOk result (λ s. is_cycle s ≡ jams lefts.now rights.now) }
{
    let mut left_to: Vec<u32> = Vec::new(alloc);
    let mut right_to: Vec<u32> = Vec::new(alloc);
    let mut parts: Vec<Carry> = Vec::new(alloc);
    keep(alloc, lefts, lefts, rights, &mut left_to, &mut parts)?;
    keep(alloc, rights, lefts, rights, &mut right_to, &mut parts)?;
    let step = step_of(alloc, are_none(lefts, rights), left_to, right_to, parts)?;
    Ok(step)
}
