// What one machine does, which may be absent.
ghost use Rattle.std.specs.Prelude.{◌≡◌, [], None, IfOk};
ghost use Rattle.rl_automata.specs.Auto.{on_part};
ghost use Rattle.rl_fsm.specs.Graphs.{fsm_auto, ranges_at};
ghost use Rattle.rl_scan.specs.Beside.{first_part, behind, is_final_in, out_in};

use rl_automata::{Kind, Move};
use rl_fsm::{Fsm, look_ups};
use rl_labels::{Carry, Stamp, Truths};
use rl_types::{KeyRange, Letter, Memory};
use std::alloc::Global;

// The state of the first machine, if it is not absent.
pub fn first_part(parts: &[Option<u32>]) -> Option<u32>
    ensures { result ≡ first_part parts.now }
{
    match parts {
        [] => None,
        [part, ..] => *part,
    }
}

// What comes behind the first.
pub fn behind<T>(items: &[T]) -> &[T]
    ensures { result.now ≡ behind items.now }
{
    match items.split_first() {
        None => items,
        Some((_, rest)) => rest,
    }
}

// The step of the machine, if it has one.
pub fn part_step(
    alloc: Global,
    m: &Fsm,
    part: Option<u32>,
    letter: Letter,
) -> Result<Option<Move<u32>>, Memory>
    ensures { IfOk result (λ o. o ≡ on_part None (λ s. (fsm_auto m.now).step s letter) part) }
{
    match part {
        None => Ok(None),
        Some(state) => look_ups::step(alloc, m, state, letter),
    }
}

// The ranges of its edges.
pub fn part_ranges(alloc: Global, m: &Fsm, part: Option<u32>) -> Result<Vec<KeyRange>, Memory>
    ensures { IfOk result (λ v. v.items ≡ on_part [] (ranges_at m.now) part) }
{
    match part {
        None => Ok(Vec::new(alloc)),
        Some(state) => look_ups::ranges(alloc, m, state),
    }
}

// The conditions that it asks.
pub fn part_asked(m: &Fsm, part: Option<u32>, at: Letter) -> Truths
    ensures { result.0 ≡ on_part 0 (λ s. (fsm_auto m.now).asked s at.key) part }
{
    match part {
        None => Truths(0),
        Some(state) => look_ups::asked(m, state, at),
    }
}

// Whether it is final.
pub fn part_final(m: &Fsm, part: Option<u32>) -> bool
    ensures { result ≡ is_final_in m.now part }
{
    match part {
        None => false,
        Some(state) => look_ups::is_final(m, state),
    }
}

// What it puts on the steps that leave it.
pub fn part_out(alloc: Global, m: &Fsm, part: Option<u32>) -> Result<Carry, Memory>
    ensures { IfOk result (λ o. o ≡ out_in m.now part) }
{
    match part {
        None => Ok(Carry::none(alloc)),
        Some(state) => look_ups::out(alloc, m, state),
    }
}

// The actions of the kind that stay with it.
pub fn part_marks(m: &Fsm, part: Option<u32>, kind: Kind) -> &[Stamp]
    ensures { result.now ≡ on_part [] (λ s. (fsm_auto m.now).marks s kind) part }
{
    match part {
        None => &[],
        Some(state) => look_ups::marks(m, state, kind),
    }
}
