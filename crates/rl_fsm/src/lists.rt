// Lists that grow, with want of memory as the error.
ghost use Rattle.std.specs.Prelude.{◌≡◌, ◌∷◌, ◌++◌, [], MatchResult};
ghost use Rattle.rl_sets.specs.Sets.{insert};

use rl_types::Memory;

// Puts a value at the end.
pub fn push<T: Drop>(items: &mut Vec<T>, x: T) -> Result<(), Memory>
    ensures { MatchResult result (λ _. items.new.items ≡ items.old.items ++ x ∷ []) (λ _. items.new.items ≡ items.old.items) }
{
    items.push(x).map_err(|_| Memory)
}

// Puts a value in its place in an ascending list, unless an equal one is there.
pub fn put_in_place<T: Ord + Drop>(items: &mut Vec<T>, x: T) -> Result<(), Memory>
    ensures { MatchResult result (λ _. items.new.items ≡ insert T.cmp x items.old.items) (λ _. items.new.items ≡ items.old.items) }
{
    rl_sets::put_in_place(items, x).map_err(|_| Memory)
}
