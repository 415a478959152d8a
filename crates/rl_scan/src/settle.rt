// Candidates for a step, cut as one set.
ghost use Rattle.std.specs.Prelude.{◌≡◌, ◌++◌, ◌&&◌, ◌∷◌, [], not, IfOk};
ghost use Rattle.std.specs.List.{list_any};
ghost use Rattle.rl_labels.specs.Labels.{beats};
ghost use Rattle.rl_automata.specs.Auto.{carries, targets, kept, first, listed, is_none_left, step_to};
ghost use Rattle.rl_explore.specs.Steps.{move_in, is_cycle};
ghost use Rattle.rl_scan.specs.Beside.{carried, kept_parts, kept_labels, settled, is_jammed};

use crate::lists::push;
use crate::parts::Parts;
use rl_automata::Move;
use rl_explore::Step;
use rl_labels::Carry;
use rl_types::Memory;
use std::alloc::Global;

// Whether one of the candidates beats this one.
fn is_beaten(steps: &[Option<Move<u32>>], c: &Carry) -> bool
    ensures { result ≡ list_any (λ d. beats d.table c.now.table) (carried steps.now) }
{
    for step in steps {
        if let Some(m) = step {
            if m.carry.table.beats(&c.table) {
                return true;
            }
        }
    }
    false
}

// Where a machine goes whose candidate none beats, and what it carries there; else it is absent.
fn keep_one(
    alloc: Global,
    step: &Option<Move<u32>>,
    steps: &[Option<Move<u32>>],
    to: &mut Vec<Option<u32>>,
    labels: &mut Vec<Carry>,
) -> Result<(), Memory>
    ensures to { IfOk result (λ _. to.new.items ≡ to.old.items ++ first (targets (kept (carried steps.now) (listed step.now))) ∷ []) }
    ensures labels { IfOk result (λ _. labels.new.items ≡ labels.old.items ++ carries (kept (carried steps.now) (listed step.now))) }
{
    match step {
        None => push(to, None),
        Some(m) => {
            if is_beaten(steps, &m.carry) {
                return push(to, None);
            }
            let carry = m.carry.copy(alloc)?;
            push(to, Some(m.to))?;
            push(labels, carry)
        }
    }
}

// The same of all machines.
fn keep(
    alloc: Global,
    steps: &[Option<Move<u32>>],
    to: &mut Vec<Option<u32>>,
    labels: &mut Vec<Carry>,
) -> Result<(), Memory>
    ensures to { IfOk result (λ _. to.new.items ≡ to.old.items ++ kept_parts (carried steps.now) steps.now) }
    ensures labels { IfOk result (λ _. labels.new.items ≡ labels.old.items ++ kept_labels (carried steps.now) steps.now) }
{
    for step in steps {
        keep_one(alloc, step, steps, to, labels)?;
    }
    Ok(())
}

// Whether there is no candidate.
fn are_none(steps: &[Option<Move<u32>>]) -> bool
    ensures { result ≡ is_none_left (carried steps.now) }
{
    for step in steps {
        if step.is_some() {
            return false;
        }
    }
    true
}

// The step to what was kept; where nothing was, whether there were candidates tells a cycle.
fn step_of(
    alloc: Global,
    none: bool,
    to: Vec<Option<u32>>,
    labels: Vec<Carry>,
) -> Result<Step<Parts>, Memory>
    ensures step { IfOk result (λ s. move_in s ≡ step_to to.items labels.items) }
    ensures cycle { IfOk result (λ s. is_cycle s ≡ (not none && is_none_left labels.items)) }
{
    if labels.is_empty() {
        return Ok(if none { Step::Stay } else { Step::Cycle });
    }
    let carry = Carry::all(alloc, &labels)?;
    Ok(Step::Go(Move {
        to: Parts::of(to),
        carry,
    }))
}

// What the candidates make together.
pub fn settle(alloc: Global, steps: &[Option<Move<u32>>]) -> Result<Step<Parts>, Memory>
    ensures step { IfOk result (λ s. move_in s ≡ settled steps.now) }
    ensures cycle { IfOk result (λ s. is_cycle s ≡ is_jammed steps.now) }
{
    let mut to: Vec<Option<u32>> = Vec::new(alloc);
    let mut labels: Vec<Carry> = Vec::new(alloc);
    keep(alloc, steps, &mut to, &mut labels)?;
    let step = step_of(alloc, are_none(steps), to, labels)?;
    Ok(step)
}
