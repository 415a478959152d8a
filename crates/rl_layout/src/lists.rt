// Lists that grow, with want of memory as the error, and parts of lists.
ghost use Rattle.std.specs.Prelude.{◌≡◌, ◌∷◌, ◌++◌, [], take, drop, MatchResult};

use rl_types::{List, Memory};

// Puts a value at the end.
pub(crate) fn push<T: Drop>(items: &mut Vec<T>, x: T) -> Result<(), Memory>
    ensures { MatchResult result (λ _. items.new.items ≡ items.old.items ++ x ∷ []) (λ _. items.new.items ≡ items.old.items) }
{
    items.push(x).map_err(|_| Memory)
}

// Puts a value at the end.
pub(crate) fn append<T: Drop>(items: &mut List<T>, x: T) -> Result<(), Memory>
    ensures { MatchResult result (λ _. items.new ≡ items.old ++ x ∷ []) (λ _. items.new ≡ items.old) }
{
    items.push(x).map_err(|_| Memory)
}

// All from an index on.
#[tactic(auto, using(std::proofs::lemmas::List::drop_all))]
pub(crate) fn rest_from<T>(xs: &[T], from: usize) -> &[T]
    ensures { result.now ≡ drop from xs.now }
{
    if from < xs.len() { &xs[from..] } else { &[] }
}

// The first so many.
#[tactic(auto, using(std::proofs::lemmas::List::take_all))]
pub(crate) fn front<T>(xs: &[T], count: usize) -> &[T]
    ensures { result.now ≡ take count xs.now }
{
    if count < xs.len() { &xs[..count] } else { xs }
}
