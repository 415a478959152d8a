// Lists that grow, with want of memory as the error.
ghost use Rattle.std.specs.Prelude.{◌≡◌, ◌∷◌, ◌++◌, [], IfOk, MatchResult};

use rl_types::Memory;
use std::alloc::Global;

// Puts a value at the end.
pub(crate) fn push<T: Drop>(items: &mut Vec<T>, x: T) -> Result<(), Memory>
    ensures { MatchResult result (λ _. items.new.items ≡ items.old.items ++ x ∷ []) (λ _. items.new.items ≡ items.old.items) }
{
    items.push(x).map_err(|_| Memory)
}

// The values in memory of their own.
pub(crate) fn copied<T: Copy>(alloc: Global, items: &[T]) -> Result<Vec<T>, Memory>
    ensures { IfOk result (λ v. v.items ≡ items.now) }
{
    Vec::from_slice(alloc, items).map_err(|_| Memory)
}
