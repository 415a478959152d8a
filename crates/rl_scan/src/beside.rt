// What all machines do together.
ghost use Rattle.std.specs.Prelude.{◌≡◌, Some, IfOk, MatchOption, MatchResult};
ghost use Rattle.rl_scan.specs.Beside.{steps_at, any_final, first_out, all_marks, all_asked, asked_with, all_ranges, all_starts};

use crate::lists::{extend, push};
use crate::part::{
    behind, first_part, part_asked, part_final, part_marks, part_out, part_ranges, part_step,
};
use rl_automata::{Kind, Move};
use rl_fsm::Fsm;
use rl_labels::{Carry, Stamp, Truths};
use rl_types::{KeyRange, Letter, Memory};
use std::alloc::Global;

// Their starts.
pub fn all_starts(alloc: Global, machines: &[Fsm]) -> Result<Vec<Option<u32>>, Memory>
    ensures { IfOk result (λ v. v.items ≡ all_starts machines.now) }
{
    let mut starts: Vec<Option<u32>> = Vec::new(alloc);
    for m in machines {
        push(&mut starts, Some(m.start()))?;
    }
    Ok(starts)
}

// The step of each.
pub fn steps_at(
    alloc: Global,
    machines: &[Fsm],
    parts: &[Option<u32>],
    letter: Letter,
) -> Result<Vec<Option<Move<u32>>>, Memory>
    ensures { IfOk result (λ v. v.items ≡ steps_at machines.now parts.now letter) }
{
    let mut steps: Vec<Option<Move<u32>>> = Vec::new(alloc);
    let mut rest = parts;
    for m in machines {
        let step = part_step(alloc, m, first_part(rest), letter)?;
        push(&mut steps, step)?;
        rest = behind(rest);
    }
    Ok(steps)
}

// Whether one is final.
pub fn any_final(machines: &[Fsm], parts: &[Option<u32>]) -> bool
    ensures { result ≡ any_final machines.now parts.now }
{
    let mut rest = parts;
    for m in machines {
        if part_final(m, first_part(rest)) {
            return true;
        }
        rest = behind(rest);
    }
    false
}

// What the first one leaves that is final.
pub fn first_out(alloc: Global, machines: &[Fsm], parts: &[Option<u32>]) -> Result<Carry, Memory>
    ensures { IfOk result (λ o. o ≡ first_out machines.now parts.now) }
{
    let mut rest = parts;
    for m in machines {
        if part_final(m, first_part(rest)) {
            return part_out(alloc, m, first_part(rest));
        }
        rest = behind(rest);
    }
    Ok(Carry::none(alloc))
}

// The actions of the kind that stay with them.
pub fn all_marks(
    alloc: Global,
    machines: &[Fsm],
    parts: &[Option<u32>],
    kind: Kind,
) -> Result<Vec<Stamp>, Memory>
    ensures { IfOk result (λ v. v.items ≡ all_marks machines.now parts.now kind) }
{
    let mut marks: Vec<Stamp> = Vec::new(alloc);
    let mut rest = parts;
    for m in machines {
        extend(&mut marks, part_marks(m, first_part(rest), kind))?;
        rest = behind(rest);
    }
    Ok(marks)
}

// The conditions that they ask, gathered one after another.
fn gathered(machines: &[Fsm], parts: &[Option<u32>], at: Letter) -> Truths
    ensures { result.0 ≡ asked_with 0 machines.now parts.now at.key }
{
    let mut asks = 0;
    let mut rest = parts;
    for m in machines {
        asks |= part_asked(m, first_part(rest), at).0;
        rest = behind(rest);
    }
    Truths(asks)
}

// The conditions that they ask.
#[tactic(auto, using(crate::proofs::Asks::asked_is))]
pub fn all_asked(machines: &[Fsm], parts: &[Option<u32>], at: Letter) -> Truths
    ensures { result.0 ≡ all_asked machines.now parts.now at.key }
{
    gathered(machines, parts, at)
}

// The ranges of their edges.
pub fn all_ranges(
    alloc: Global,
    machines: &[Fsm],
    parts: &[Option<u32>],
) -> Result<Vec<KeyRange>, Memory>
    ensures { IfOk result (λ v. v.items ≡ all_ranges machines.now parts.now) }
{
    let mut ranges: Vec<KeyRange> = Vec::new(alloc);
    let mut rest = parts;
    for m in machines {
        let more = part_ranges(alloc, m, first_part(rest))?;
        extend(&mut ranges, &more)?;
        rest = behind(rest);
    }
    Ok(ranges)
}
