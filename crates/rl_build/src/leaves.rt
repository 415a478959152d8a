// Lists that grow, with want of memory as the error.
ghost use Rattle.std.specs.Prelude.{◌≡◌, ◌∷◌, ◌++◌, [], MatchResult, IfOk};
ghost use Rattle.std.specs.Ordering.{nat_cmp};
ghost use Rattle.rl_sets.specs.Sets.{insert};

use crate::cells::KeySet;
use rl_types::{KeyRange, Memory};
use std::alloc::Global;

// Puts a value at the end.
pub fn push<T: Drop>(items: &mut Vec<T>, x: T) -> Result<(), Memory>
    ensures { MatchResult result (λ _. items.new.items ≡ items.old.items ++ x ∷ []) (λ _. items.new.items ≡ items.old.items) }
{
    items.push(x).map_err(|_| Memory)
}

// Puts a number in its place, unless it is there.
pub fn put_in_place(numbers: &mut Vec<u8>, x: u8) -> Result<(), Memory>
    ensures { MatchResult result (λ _. numbers.new.items ≡ insert nat_cmp x numbers.old.items) (λ _. numbers.new.items ≡ numbers.old.items) }
{
    rl_sets::put_in_place(numbers, x).map_err(|_| Memory)
}

// The same ranges.
pub fn copied(alloc: Global, set: &[KeyRange]) -> Result<KeySet, Memory>
    ensures { IfOk result (λ s. s ≡ set.now) }
{
    rl_types::List::from_slice(alloc, set).map_err(|_| Memory)
}

// A list of one set, of the same ranges.
pub fn one_set(alloc: Global, set: &[KeyRange]) -> Result<Vec<KeySet>, Memory>
    ensures { IfOk result (λ v. v.items ≡ set.now ∷ []) }
{
    let ranges = copied(alloc, set)?;
    let mut sets: Vec<KeySet> = Vec::new(alloc);
    push(&mut sets, ranges)?;
    Ok(sets)
}

// The same numbers.
pub fn copied_numbers(alloc: Global, numbers: &[u8]) -> Result<Vec<u8>, Memory>
    ensures { IfOk result (λ v. v.items ≡ numbers.now) }
{
    Vec::from_slice(alloc, numbers).map_err(|_| Memory)
}
