// Lists that grow, with want of memory as the error.
ghost use Rattle.std.specs.Prelude.{◌≡◌, ◌∷◌, ◌++◌, [], IfOk, MatchResult};
ghost use Rattle.rl_automata.specs.Auto.{listed};

use rl_types::Memory;
use std::alloc::Global;

// Puts a value at the end.
pub fn push<T: Drop>(items: &mut Vec<T>, x: T) -> Result<(), Memory>
    ensures { MatchResult result (λ _. items.new.items ≡ items.old.items ++ x ∷ []) (λ _. items.new.items ≡ items.old.items) }
{
    items.push(x).map_err(|_| Memory)
}

// Puts the values at the end.
pub fn extend<T: Copy>(items: &mut Vec<T>, more: &[T]) -> Result<(), Memory>
    ensures { MatchResult result (λ _. items.new.items ≡ items.old.items ++ more.now) (λ _. items.new.items ≡ items.old.items) }
{
    items.extend_from_slice(more).map_err(|_| Memory)
}

// Puts the value at the end, if there is one.
pub fn push_some<T: Drop>(items: &mut Vec<T>, x: Option<T>) -> Result<(), Memory>
    ensures { IfOk result (λ _. items.new.items ≡ items.old.items ++ listed x) }
{
    if let Some(value) = x {
        push(items, value)?;
    }
    Ok(())
}

// The values in memory of their own.
pub fn copied<T: Copy>(alloc: Global, items: &[T]) -> Result<Vec<T>, Memory>
    ensures { IfOk result (λ v. v.items ≡ items.now) }
{
    Vec::from_slice(alloc, items).map_err(|_| Memory)
}
