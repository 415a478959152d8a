// Repetitions.
ghost use Rattle.std.specs.Prelude.{◌≡◌, ◌+◌, ◌-◌, ◌≤◌, ◌<◌, ◌^◌, Some, None, IfOk, OnOk};
ghost use Rattle.rl_rewrite.specs.Walk as w;
ghost use Rattle.rl_rewrite.specs.Steps as s;
ghost use Rattle.rl_rewrite.specs.Steps.{placed_of, AreFew, repeated_on, all_repeated_on, all_stamps, repetition_stamps};

use crate::copies::{copy, row};
use crate::counts::{Counts, made_name, next};
use crate::layers::Layer;
use crate::placed::{Pairing, Placed, layered, pair, single, star};
use rl_automata::{Label, Tree};
use rl_draft::{Bounds, Repetition, Transitions};
use rl_types::Place;
use std::alloc::{AllocError, Global};

// Whether a count makes a copy.
pub fn has_copies(least: u64, most: Option<u64>) -> bool
    ensures { result ≡ w.has_copies least most }
{
    least > 0 || most != Some(0)
}

// A tree, or the empty word.
fn optional(alloc: Global, x: Placed, at: Place) -> Result<Placed, AllocError>
    ensures { IfOk result (λ r. placed_of r ≡ w.optional (placed_of x) at) }
{
    let null = single(alloc, Tree::Null, at)?;
    pair(alloc, Pairing::Either, x, null, at)
}

// The copies of a count with an upper bound.
fn bounded(alloc: Global, least: u64, most: u64, at: Place, x: Placed) -> Result<Placed, AllocError>
    ensures { IfOk result (λ r. placed_of r ≡ w.bounded least most at (placed_of x)) }
{
    let c = copy(alloc, &x)?;
    let maybe = optional(alloc, c, at)?;
    row(alloc, &x, least, &maybe, most.saturating_sub(least), at)
}

// The copies of a count without an upper bound.
fn unbounded(
    alloc: Global,
    least: u64,
    at: Place,
    x: Placed,
    counts: &mut Counts,
) -> Result<Placed, AllocError>
    requires stamps { counts.old.stamp < 2 ^ 32 - 1 }
    requires few { AreFew counts.old }
    ensures tree { IfOk result (λ r. (placed_of r, counts.new) ≡ w.counted least None at (placed_of x) counts.old) }
    ensures stamp { OnOk result (counts.new.stamp ≤ counts.old.stamp + 1) }
    ensures few { OnOk result (AreFew counts.new) }
{
    let c = copy(alloc, &x)?;
    let base = next(counts);
    let rest = star(alloc, c, base, at)?;
    row(alloc, &x, least, &rest, 1, at)
}

// `**`.
fn longest(alloc: Global, at: Place, x: Placed, counts: &mut Counts) -> Result<Placed, AllocError>
    requires stamps { counts.old.stamp + 3 < 2 ^ 32 - 1 }
    requires few { AreFew counts.old }
    ensures tree { IfOk result (λ r. (placed_of r, counts.new) ≡ w.longest at (placed_of x) counts.old) }
    ensures stamp { OnOk result (counts.new.stamp ≤ counts.old.stamp + 3) }
    ensures few { OnOk result (AreFew counts.new) }
{
    let name = made_name(counts)?;
    let every = Layer::Step(Transitions::All, Label::Prior(next(counts), name, 1));
    let leaving = Layer::Step(Transitions::Leaving, Label::Prior(next(counts), name, 0));
    let x = layered(alloc, every, x, at)?;
    let x = layered(alloc, leaving, x, at)?;
    star(alloc, x, next(counts), at)
}

// The copies of a repetition that has some.
fn repeat(
    alloc: Global,
    repetition: Repetition,
    at: Place,
    x: Placed,
    counts: &mut Counts,
) -> Result<Placed, AllocError>
    requires stamps { counts.old.stamp + repetition_stamps repetition < 2 ^ 32 - 1 }
    requires few { AreFew counts.old }
    ensures tree { IfOk result (λ r. (placed_of r, counts.new) ≡ repeated_on repetition at (placed_of x) counts.old) }
    ensures stamp { OnOk result (counts.new.stamp ≤ counts.old.stamp + repetition_stamps repetition) }
    ensures few { OnOk result (AreFew counts.new) }
{
    match repetition {
        Repetition::Star => unbounded(alloc, 0, at, x, counts),
        Repetition::LongestStar => longest(alloc, at, x, counts),
        Repetition::Optional => bounded(alloc, 0, 1, at, x),
        Repetition::Plus => unbounded(alloc, 1, at, x, counts),
        Repetition::Count(Bounds { least, most: None }) => unbounded(alloc, least, at, x, counts),
        Repetition::Count(
            Bounds {
                least,
                most: Some(most),
            },
        ) => bounded(alloc, least, most, at, x),
    }
}

// Whether a repetition makes a copy.
pub fn copies(repetition: Repetition) -> bool
    ensures { result ≡ s.copies repetition }
{
    match repetition {
        Repetition::Count(bounds) => has_copies(bounds.least, bounds.most),
        _ => true,
    }
}

// The repetitions behind the last one that makes no copy.
#[tactic(auto, using(crate::proofs::RepeatLaws::behind_all))]
pub fn behind_uncopied(repetitions: &[Repetition]) -> &[Repetition]
    ensures { result.now ≡ s.behind_uncopied repetitions.now }
{
    let mut rest = repetitions;
    for (i, r) in repetitions.iter().enumerate() {
        if !copies(*r) {
            rest = &repetitions[i + 1..];
        }
    }
    rest
}

// Whether each of them makes a copy.
pub fn are_copies(repetitions: &[Repetition]) -> bool
    ensures { result ≡ s.are_copies repetitions.now }
{
    repetitions.iter().all(|r| copies(*r))
}

// The copies of all repetitions, the innermost first.
pub fn repeat_all(
    alloc: Global,
    repetitions: &[Repetition],
    at: Place,
    x: Placed,
    counts: &mut Counts,
) -> Result<Placed, AllocError>
    requires stamps { counts.old.stamp + all_stamps repetitions.now < 2 ^ 32 - 1 }
    requires few { AreFew counts.old }
    ensures tree { IfOk result (λ r. (placed_of r, counts.new) ≡ all_repeated_on repetitions.now at (placed_of x) counts.old) }
    ensures stamp { OnOk result (counts.new.stamp ≤ counts.old.stamp + all_stamps repetitions.now) }
    ensures few { OnOk result (AreFew counts.new) }
{
    let mut x = x;
    for r in repetitions {
        x = repeat(alloc, *r, at, x, counts)?;
    }
    Ok(x)
}
