// What wants memory.
ghost use Rattle.std.specs.Prelude.{◌≡◌, ◌++◌, ◌∷◌, [], IfOk};

use rl_types::{List, Memory};

/// Puts an item at the end of a list.
pub fn push<T: Drop>(list: &mut List<T>, item: T) -> Result<(), Memory>
    ensures { IfOk result (λ _. list.new ≡ list.old ++ item ∷ []) }
{
    list.push(item).map_err(|_| Memory)
}
