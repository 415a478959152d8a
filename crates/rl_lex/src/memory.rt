// What wants memory.
ghost use Rattle.std.specs.Prelude.{◌≡◌, ◌++◌, ◌∷◌, [], MatchResult, IfErr};
ghost use Rattle.rl_grammar.specs.declared.read_fault.ReadFault.TheVariants.{Memory};

use rl_grammar::ReadFault;
use rl_types::List;
use std::alloc::Global;

/// A copy of bytes.
pub fn copied(alloc: Global, bytes: &[u8]) -> Result<List<u8>, ReadFault>
    ensures { MatchResult result (λ list. list ≡ bytes.now) (λ e. e ≡ Memory) }
{
    List::from_slice(alloc, bytes).map_err(|_| ReadFault::Memory)
}

/// Puts an item at the end of a list.
pub fn push<T: Drop>(list: &mut List<T>, item: T) -> Result<(), ReadFault>
    ensures { MatchResult result (λ _. list.new ≡ list.old ++ item ∷ []) (λ e. e ≡ Memory) }
{
    list.push(item).map_err(|_| ReadFault::Memory)
}
