// What wants memory.
ghost use Rattle.std.specs.Prelude.{◌≡◌, ◌++◌, ◌∷◌, [], reverse, MatchResult};
ghost use Rattle.rl_resolve.specs.declared.answer.ResolveFault.TheVariants as refusal;

use crate::answer::ResolveFault;
use rl_types::{List, Name};
use std::alloc::Global;

/// Puts an item at the end of a list.
pub fn push<T: Drop>(list: &mut List<T>, item: T) -> Result<(), ResolveFault>
    ensures { MatchResult result (λ _. list.new ≡ list.old ++ item ∷ []) (λ e. (e ≡ refusal.Memory) × (list.new ≡ list.old)) }
{
    list.push(item).map_err(|_| ResolveFault::Memory)
}

/// A copy of a name.
pub fn copied(alloc: Global, name: &Name) -> Result<Name, ResolveFault>
    ensures { MatchResult result (λ copy. copy ≡ name.now) (λ e. e ≡ refusal.Memory) }
{
    match Vec::from_slice(alloc, name.bytes()) {
        Ok(bytes) => Ok(Name::new(bytes)),
        Err(_) => Err(ResolveFault::Memory),
    }
}

/// A copy of names.
pub fn copies(alloc: Global, names: &[Name]) -> Result<List<Name>, ResolveFault>
    ensures { MatchResult result (λ copy. copy ≡ names.now) (λ e. e ≡ refusal.Memory) }
{
    let mut found = List::new(alloc);
    for name in names {
        push(&mut found, copied(alloc, name)?)?;
    }
    Ok(found)
}

/// A list from its end.
pub fn reversed<T: Drop>(alloc: Global, list: List<T>) -> Result<List<T>, ResolveFault>
    ensures { MatchResult result (λ found. found ≡ reverse list) (λ e. e ≡ refusal.Memory) }
{
    let mut list = list;
    let mut found = List::new(alloc);
    while let Some(item) = list.pop() {
        push(&mut found, item)?;
    }
    Ok(found)
}
