// Lists that grow, with want of memory as the error.
ghost use Rattle.std.specs.Prelude.{◌≡◌, ◌∷◌, ◌++◌, [], IfOk, MatchResult};
ghost use Rattle.rl_sets.specs.Sets.{insert};

use rl_sets::put_in_place;
use rl_types::{Letter, Memory};
use std::alloc::Global;

// Puts a value at the end.
pub(crate) fn push<T: Drop>(items: &mut Vec<T>, x: T) -> Result<(), Memory>
    ensures { MatchResult result (λ _. items.new.items ≡ items.old.items ++ x ∷ []) (λ _. items.new.items ≡ items.old.items) }
{
    items.push(x).map_err(|_| Memory)
}

// Puts a value in its place, unless it is there.
pub(crate) fn put<T: Ord + Drop>(items: &mut Vec<T>, x: T) -> Result<(), Memory>
    ensures { MatchResult result (λ _. items.new.items ≡ insert T.cmp x items.old.items) (λ _. items.new.items ≡ items.old.items) }
{
    put_in_place(items, x).map_err(|_| Memory)
}

// The word itself.
pub(crate) fn copied(alloc: Global, word: &[Letter]) -> Result<Vec<Letter>, Memory>
    ensures { IfOk result (λ v. v.items ≡ word.now) }
{
    word.to_vec(alloc).map_err(|_| Memory)
}

// The word with a letter behind it.
pub(crate) fn longer(alloc: Global, word: &[Letter], last: Letter) -> Result<Vec<Letter>, Memory>
    ensures { IfOk result (λ v. v.items ≡ word.now ++ last ∷ []) }
{
    let mut longer = copied(alloc, word)?;
    push(&mut longer, last)?;
    Ok(longer)
}

// The word with a letter before it.
pub(crate) fn led_by(alloc: Global, first: Letter, word: &[Letter]) -> Result<Vec<Letter>, Memory>
    ensures { IfOk result (λ v. v.items ≡ first ∷ word.now) }
{
    let mut led = Vec::new(alloc);
    push(&mut led, first)?;
    for letter in word {
        push(&mut led, *letter)?;
    }
    Ok(led)
}
