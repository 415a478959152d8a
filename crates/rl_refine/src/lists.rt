// Lists of numbers, with want of memory as the error.
ghost use Rattle.std.specs.Prelude.{◌≡◌, ◌↔◌, ◌∷◌, ◌++◌, [], IsTrue, MatchResult};
ghost use Rattle.rl_refine.specs.Classes.{class_in};

use rl_types::Memory;

// Puts a number at the end.
pub(crate) fn push(items: &mut Vec<u32>, x: u32) -> Result<(), Memory>
    ensures { MatchResult result
        (λ _. items.new.items ≡ items.old.items ++ x ∷ [])
        (λ _. items.new.items ≡ items.old.items) }
{
    items.push(x).map_err(|_| Memory)
}

// The class of a state.
pub(crate) fn class_in(classes: &[u32], state: u32) -> u32
    ensures { result ≡ class_in classes.now state }
{
    match classes.get(state as usize) {
        Some(class) => *class,
        None => 0,
    }
}

// Whether the lists are equal.
pub(crate) fn are_same(one: &[u32], other: &[u32]) -> bool
    ensures { IsTrue result ↔ (one.now ≡ other.now) }
{
    one == other
}
