// Lists that grow, with want of memory as the error, parts of lists, and numbers of arrays.
ghost use Rattle.std.specs.Prelude.{◌≡◌, ◌∷◌, ◌++◌, [], pos, take, drop, IfOk};
ghost use Rattle.rl_arrays.specs.Words.{natural, number_at};

use rl_types::Memory;

// Puts a value at the end.
pub(crate) fn push<T: Drop>(items: &mut Vec<T>, x: T) -> Result<(), Memory>
    ensures { IfOk result (λ _. items.new.items ≡ items.old.items ++ x ∷ []) }
{
    items.push(x).map_err(|_| Memory)
}

// All from an index on.
#[tactic(auto, using(std::proofs::lemmas::List::drop_all))]
pub(crate) fn rest_from<T>(xs: &[T], from: usize) -> &[T]
    ensures { result.now ≡ drop from xs.now }
{
    if from < xs.len() { &xs[from..] } else { &[] }
}

// The first so many.
#[tactic(auto, using(std::proofs::lemmas::List::take_all))]
pub(crate) fn front<T>(xs: &[T], count: u128) -> &[T]
    ensures { result.now ≡ take count xs.now }
{
    if count < xs.len() as u128 {
        &xs[..count as usize]
    } else {
        xs
    }
}

// A number as a count; a negative one counts as 0.
pub(crate) fn count_of(n: i64) -> usize
    ensures { result ≡ natural n }
{
    if n < 0 { 0 } else { n as usize }
}

// The count at an index, 0 where the element is missing or negative.
pub(crate) fn count_at(xs: &[i64], i: usize) -> usize
    ensures { result ≡ number_at xs.now i }
{
    match xs.get(i) {
        Some(n) => count_of(*n),
        None => 0,
    }
}

// A count as an element of an array.
pub(crate) fn number(n: usize) -> Result<i64, Memory>
    ensures { IfOk result (λ z. z ≡ pos n) }
{
    match i64::try_from(n) {
        Ok(z) => Ok(z),
        Err(_) => Err(Memory),
    }
}
