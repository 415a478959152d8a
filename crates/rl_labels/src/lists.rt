// Lists that grow, with want of memory as the error.
ghost use Rattle.std.specs.Prelude.{◌≡◌, ◌∷◌, ◌++◌, [], IfOk, MatchResult};
ghost use Rattle.rl_sets.specs.Sets.{insert};

use rl_types::Memory;
use std::alloc::Global;

// Puts a value at the end.
pub fn push<T: Drop>(items: &mut Vec<T>, x: T) -> Result<(), Memory>
    ensures { MatchResult result (λ _. items.new.items ≡ items.old.items ++ x ∷ []) (λ _. items.new.items ≡ items.old.items) }
{
    items.push(x).map_err(|_| Memory)
}

// Puts a value in its place in an ascending list, unless an equal one is there.
pub fn put_in_place<T: Ord + Drop>(items: &mut Vec<T>, x: T) -> Result<(), Memory>
    ensures { MatchResult result (λ _. items.new.items ≡ insert T.cmp x items.old.items) (λ _. items.new.items ≡ items.old.items) }
{
    rl_sets::put_in_place(items, x).map_err(|_| Memory)
}

// Puts the values at the end.
pub fn extend<T: Copy>(items: &mut Vec<T>, more: &[T]) -> Result<(), Memory>
    ensures { MatchResult result (λ _. items.new.items ≡ items.old.items ++ more.now) (λ _. items.new.items ≡ items.old.items) }
{
    items.extend_from_slice(more).map_err(|_| Memory)
}

// The values in memory of their own.
pub fn copied<T: Copy>(alloc: Global, items: &[T]) -> Result<Vec<T>, Memory>
    ensures { IfOk result (λ v. v.items ≡ items.now) }
{
    Vec::from_slice(alloc, items).map_err(|_| Memory)
}

// The first list, and then the second.
pub fn chained<T: Copy>(alloc: Global, first: &[T], second: &[T]) -> Result<Vec<T>, Memory>
    ensures { IfOk result (λ v. v.items ≡ first.now ++ second.now) }
{
    let mut items = copied(alloc, first)?;
    extend(&mut items, second)?;
    Ok(items)
}
