// The joins of a chain, before and behind the walk of the right operand.
ghost use Rattle.std.specs.Prelude.{◌≡◌, ◌+◌, ◌-◌, ◌≤◌, ◌<◌, ◌^◌, IfOk, OnOk};
ghost use Rattle.rl_automata.specs.Nodes as n;
ghost use Rattle.rl_rewrite.specs.Plain as p;
ghost use Rattle.rl_rewrite.specs.Walk as w;
ghost use Rattle.rl_rewrite.specs.Steps.{placed_of, AreFew, guard_of, opened_of, opened, opened_strong, opened_entering, opened_finishing, closed, closed_strong, closed_guard};

use crate::counts::{Counts, made_name, next};
use crate::layers::Layer;
use crate::placed::{Pairing, Placed, layered, pair, single, star};
use rl_automata::{Label, Tree};
use rl_draft::{Join, Negation, Transitions};
use rl_types::{Alphabet, KeyRange, List, Place};
use std::alloc::{AllocError, Global};

/// A left operand, with all that is done before the right one's walk.
#[derive(Debug, Drop)]
pub enum Opening {
    /// Nothing is done.
    Pair(Pairing, Placed),
    /// `--`: the first `any*`.
    Strong(Placed, Placed),
    /// The label of the left operand is there, and the right one gets this one on its first transitions.
    Entering(Placed, Label),
    /// The same, with this name's priority on its last transitions, which is stamped later.
    Finishing(Placed, u32),
}

#[tactic(auto, using(crate::proofs::DraftLaws::ends_ascend))]
fn any(alloc: Global, alphabet: Alphabet) -> Result<List<KeyRange>, AllocError>
    ensures { IfOk result (λ r. r ≡ p.any alphabet) }
{
    let mut ranges: List<KeyRange> = List::new(alloc);
    if let Some(range) = KeyRange::new(alphabet.least_key(), alphabet.greatest_key()) {
        ranges.push(range)?;
    }
    Ok(ranges)
}

fn any_set(alloc: Global, alphabet: Alphabet, at: Place) -> Result<Placed, AllocError>
    ensures { IfOk result (λ r. placed_of r ≡ w.single (n.Set (p.any alphabet)) at) }
{
    let ranges = any(alloc, alphabet)?;
    single(alloc, Tree::Set(ranges), at)
}

// `any*`.
fn every(
    alloc: Global,
    alphabet: Alphabet,
    at: Place,
    counts: &mut Counts,
) -> Result<Placed, AllocError>
    requires stamps { counts.old.stamp < 2 ^ 32 - 1 }
    requires few { AreFew counts.old }
    ensures tree { IfOk result (λ r. (placed_of r, counts.new) ≡ w.walk (p.every alphabet at) counts.old) }
    ensures stamp { OnOk result (counts.new.stamp ≤ counts.old.stamp + 1) }
    ensures few { OnOk result (AreFew counts.new) }
{
    let set = any_set(alloc, alphabet, at)?;
    star(alloc, set, next(counts), at)
}

// What a negation takes its operand from.
pub fn whole(
    alloc: Global,
    alphabet: Alphabet,
    negation: Negation,
    at: Place,
    counts: &mut Counts,
) -> Result<Placed, AllocError>
    requires stamps { counts.old.stamp < 2 ^ 32 - 1 }
    requires few { AreFew counts.old }
    ensures tree { IfOk result (λ r. (placed_of r, counts.new) ≡ w.walk (p.whole alphabet negation at) counts.old) }
    ensures stamp { OnOk result (counts.new.stamp ≤ counts.old.stamp + 1) }
    ensures few { OnOk result (AreFew counts.new) }
{
    match negation {
        Negation::Language => every(alloc, alphabet, at, counts),
        Negation::Character => any_set(alloc, alphabet, at),
    }
}

/// The operators that guard.
#[derive(Clone, Copy, Debug, PartialEq, Eq)]
pub enum Guard {
    Left,
    Entry,
    Finish,
}

fn left_value(guard: Guard) -> i64
    ensures { result ≡ w.left_value (guard_of guard) }
{
    match guard {
        Guard::Left => 1,
        Guard::Entry | Guard::Finish => 0,
    }
}

fn right_value(guard: Guard) -> i64
    ensures { result ≡ w.right_value (guard_of guard) }
{
    match guard {
        Guard::Left => 0,
        Guard::Entry | Guard::Finish => 1,
    }
}

// The left operand of a guard.
fn open_guard(
    alloc: Global,
    guard: Guard,
    at: Place,
    left: Placed,
    name: u32,
    counts: &mut Counts,
) -> Result<Placed, AllocError>
    requires stamps { counts.old.stamp < 2 ^ 32 - 1 }
    ensures tree { IfOk result (λ r. (placed_of r, counts.new) ≡ w.guarded_left (guard_of guard) name at (placed_of left) counts.old) }
    ensures counts { counts.new ≡ w.stamped counts.old }
{
    let label = Label::Prior(next(counts), name, left_value(guard));
    layered(alloc, Layer::Step(Transitions::All, label), left, at)
}

// The left operand of `<:` and `:>`, and the right one's label.
fn open_entering(
    alloc: Global,
    guard: Guard,
    at: Place,
    left: Placed,
    counts: &mut Counts,
) -> Result<Opening, AllocError>
    requires stamps { counts.old.stamp < 2 ^ 32 - 2 }
    requires few { AreFew counts.old }
    ensures opening { IfOk result (λ r. (opened_of r, counts.new) ≡ opened_entering (guard_of guard) at (placed_of left) counts.old) }
    ensures stamp { OnOk result (counts.new.stamp ≤ counts.old.stamp + 2) }
    ensures few { OnOk result (AreFew counts.new) }
{
    let name = made_name(counts)?;
    let x = open_guard(alloc, guard, at, left, name, counts)?;
    let label = Label::Prior(next(counts), name, right_value(guard));
    Ok(Opening::Entering(x, label))
}

// The left operand of `:>>`.
fn open_finishing(
    alloc: Global,
    at: Place,
    left: Placed,
    counts: &mut Counts,
) -> Result<Opening, AllocError>
    requires stamps { counts.old.stamp < 2 ^ 32 - 2 }
    requires few { AreFew counts.old }
    ensures opening { IfOk result (λ r. (opened_of r, counts.new) ≡ opened_finishing at (placed_of left) counts.old) }
    ensures stamp { OnOk result (counts.new.stamp ≤ counts.old.stamp + 1) }
    ensures few { OnOk result (AreFew counts.new) }
{
    let name = made_name(counts)?;
    let x = open_guard(alloc, Guard::Finish, at, left, name, counts)?;
    Ok(Opening::Finishing(x, name))
}

fn open_strong(
    alloc: Global,
    alphabet: Alphabet,
    at: Place,
    left: Placed,
    counts: &mut Counts,
) -> Result<Opening, AllocError>
    requires stamps { counts.old.stamp < 2 ^ 32 - 2 }
    requires few { AreFew counts.old }
    ensures opening { IfOk result (λ r. (opened_of r, counts.new) ≡ opened_strong alphabet at (placed_of left) counts.old) }
    ensures stamp { OnOk result (counts.new.stamp ≤ counts.old.stamp + 1) }
    ensures few { OnOk result (AreFew counts.new) }
{
    let every = every(alloc, alphabet, at, counts)?;
    Ok(Opening::Strong(left, every))
}

// All that is done before the right operand's walk.
pub fn open(
    alloc: Global,
    alphabet: Alphabet,
    join: Join,
    at: Place,
    left: Placed,
    counts: &mut Counts,
) -> Result<Opening, AllocError>
    requires stamps { counts.old.stamp < 2 ^ 32 - 2 }
    requires few { AreFew counts.old }
    ensures opening { IfOk result (λ r. (opened_of r, counts.new) ≡ opened alphabet join at (placed_of left) counts.old) }
    ensures stamp { OnOk result (counts.new.stamp ≤ counts.old.stamp + 2) }
    ensures few { OnOk result (AreFew counts.new) }
{
    match join {
        Join::Union => Ok(Opening::Pair(Pairing::Either, left)),
        Join::Intersection => Ok(Opening::Pair(Pairing::Both, left)),
        Join::Difference => Ok(Opening::Pair(Pairing::Less, left)),
        Join::Concatenation => Ok(Opening::Pair(Pairing::Then, left)),
        Join::StrongDifference => open_strong(alloc, alphabet, at, left, counts),
        Join::LeftGuarded => open_entering(alloc, Guard::Left, at, left, counts),
        Join::EntryGuarded => open_entering(alloc, Guard::Entry, at, left, counts),
        Join::FinishGuarded => open_finishing(alloc, at, left, counts),
    }
}

fn close_strong(
    alloc: Global,
    alphabet: Alphabet,
    at: Place,
    left: Placed,
    first: Placed,
    right: Placed,
    counts: &mut Counts,
) -> Result<Placed, AllocError>
    requires stamps { counts.old.stamp < 2 ^ 32 - 1 }
    requires few { AreFew counts.old }
    ensures tree { IfOk result (λ r. (placed_of r, counts.new) ≡ closed_strong alphabet at (placed_of left) (placed_of first) (placed_of right) counts.old) }
    ensures stamp { OnOk result (counts.new.stamp ≤ counts.old.stamp + 1) }
    ensures few { OnOk result (AreFew counts.new) }
{
    let front = pair(alloc, Pairing::Then, first, right, at)?;
    let last = every(alloc, alphabet, at, counts)?;
    let inner = pair(alloc, Pairing::Then, front, last, at)?;
    pair(alloc, Pairing::Less, left, inner, at)
}

fn close_guard(
    alloc: Global,
    transitions: Transitions,
    label: Label,
    at: Place,
    left: Placed,
    right: Placed,
) -> Result<Placed, AllocError>
    ensures { IfOk result (λ r. placed_of r ≡ closed_guard transitions label at (placed_of left) (placed_of right)) }
{
    let y = layered(alloc, Layer::Step(transitions, label), right, at)?;
    pair(alloc, Pairing::Then, left, y, at)
}

// All that is done behind the right operand's walk.
pub fn close(
    alloc: Global,
    alphabet: Alphabet,
    at: Place,
    opening: Opening,
    right: Placed,
    counts: &mut Counts,
) -> Result<Placed, AllocError>
    requires stamps { counts.old.stamp < 2 ^ 32 - 1 }
    requires few { AreFew counts.old }
    ensures tree { IfOk result (λ r. (placed_of r, counts.new) ≡ closed alphabet at (opened_of opening) (placed_of right) counts.old) }
    ensures stamp { OnOk result (counts.new.stamp ≤ counts.old.stamp + 1) }
    ensures few { OnOk result (AreFew counts.new) }
{
    match opening {
        Opening::Pair(pairing, left) => pair(alloc, pairing, left, right, at),
        Opening::Strong(left, first) => close_strong(
            alloc, alphabet, at, left, first, right, counts,
        ),
        Opening::Entering(left, label) => close_guard(
            alloc,
            Transitions::Entering,
            label,
            at,
            left,
            right,
        ),
        Opening::Finishing(left, name) => {
            let label = Label::Prior(next(counts), name, right_value(Guard::Finish));
            close_guard(alloc, Transitions::Finishing, label, at, left, right)
        }
    }
}
