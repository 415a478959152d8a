// What a part does, which may be absent.
ghost use Rattle.std.specs.Prelude.{◌≡◌, [], false, IfOk};
ghost use Rattle.rl_labels.specs.Carries.{no_carry};
ghost use Rattle.rl_automata.specs.Auto.{on_part, part_moves};
ghost use Rattle.rl_fsm.specs.Graphs.{fsm_auto};
ghost use Rattle.rl_ops.specs.Parts.{part_ranges};

use crate::lists::push_some;
use rl_automata::{Kind, Move};
use rl_fsm::{Fsm, look_ups};
use rl_labels::{Carry, Stamp, Truths};
use rl_types::{KeyRange, Letter, Memory};
use std::alloc::Global;

// The step of the part, if it is there and has one.
pub fn part_moves(
    alloc: Global,
    m: &Fsm,
    part: Option<u32>,
    letter: Letter,
) -> Result<Vec<Move<u32>>, Memory>
    ensures { IfOk result (λ v. v.items ≡ part_moves (fsm_auto m.now) letter part) }
{
    let mut moves: Vec<Move<u32>> = Vec::new(alloc);
    if let Some(state) = part {
        push_some(&mut moves, look_ups::step(alloc, m, state, letter)?)?;
    }
    Ok(moves)
}

// The ranges of its edges.
pub fn part_ranges(alloc: Global, m: &Fsm, part: Option<u32>) -> Result<Vec<KeyRange>, Memory>
    ensures { IfOk result (λ v. v.items ≡ part_ranges m.now part) }
{
    match part {
        None => Ok(Vec::new(alloc)),
        Some(state) => look_ups::ranges(alloc, m, state),
    }
}

// The conditions that it asks.
pub fn part_asked(m: &Fsm, part: Option<u32>, at: Letter) -> Truths
    ensures { result.0 ≡ on_part 0 (λ s. (fsm_auto m.now).asked s at.key) part }
{
    match part {
        None => Truths(0),
        Some(state) => look_ups::asked(m, state, at),
    }
}

// Whether it is final.
pub fn part_final(m: &Fsm, part: Option<u32>) -> bool
    ensures { result ≡ on_part false (fsm_auto m.now).final part }
{
    match part {
        None => false,
        Some(state) => look_ups::is_final(m, state),
    }
}

// What it puts on the steps that leave it.
pub fn part_out(alloc: Global, m: &Fsm, part: Option<u32>) -> Result<Carry, Memory>
    ensures { IfOk result (λ o. o ≡ on_part no_carry (fsm_auto m.now).out part) }
{
    match part {
        None => Ok(Carry::none(alloc)),
        Some(state) => look_ups::out(alloc, m, state),
    }
}

// The actions of the kind that stay with it.
pub fn part_marks(m: &Fsm, part: Option<u32>, kind: Kind) -> &[Stamp]
    ensures { result.now ≡ on_part [] (λ s. (fsm_auto m.now).marks s kind) part }
{
    match part {
        None => &[],
        Some(state) => look_ups::marks(m, state, kind),
    }
}
