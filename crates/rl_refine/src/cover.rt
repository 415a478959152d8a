// Whether the edges of two states do the same at all keys, where states of one class are one, decided range by range.
ghost use Rattle.std.specs.Prelude.{◌≡◌, ℤ, ◌↔◌, ◌≤ℤ◌, MatchOption, IsTrue, All};
ghost use Rattle.rl_types.specs.KeyRange.{in_range};
ghost use Rattle.rl_refine.specs.Covers.{StepAlike, IsLike, HasLike, IsCovered, AreSound};

use crate::lists::class_in;
use rl_minimal::MinEdge;
use rl_types::{ActionId, Key};

// Whether the lists are equal.
pub(crate) fn same_list(one: &[ActionId], other: &[ActionId]) -> bool
    ensures { IsTrue result ↔ (one.now ≡ other.now) }
{
    one == other
}

// Whether the other edge is taken under the same conditions, with the same list, and leads to the same class.
fn is_like(classes: &[u32], e: &MinEdge, f: &MinEdge) -> bool
    ensures { IsTrue result ↔ IsLike classes.now e.now f.now }
{
    e.asks.0 == f.asks.0
        && e.truths.0 == f.truths.0
        && class_in(classes, e.target) == class_in(classes, f.target)
        && same_list(e.list.as_slice(), f.list.as_slice())
}

// Whether the range of the edge has the key.
fn has_key(e: &MinEdge, key: Key) -> bool
    ensures { result ≡ in_range key.0 e.now.range }
{
    e.range.lo() <= key.0 && key.0 <= e.range.hi()
}

// The last key of the edge.
fn last_key(e: &MinEdge) -> Key
    ensures { result.0 ≡ e.now.range.hi }
{
    Key(e.range.hi())
}

// The last key of an edge that has this key and is like `e`, if there is one.
fn like_until(classes: &[u32], e: &MinEdge, edges: &[MinEdge], key: Key) -> Option<Key>
    ensures { MatchOption result (HasLike classes.now e.now edges.now key.0 → ⊥)
        (λ last. (key.0 ≤ℤ last.0) × ((k : ℤ) → key.0 ≤ℤ k → k ≤ℤ last.0 → HasLike classes.now e.now edges.now k)) }
{
    for f in edges {
        if has_key(f, key) && is_like(classes, e, f) {
            return Some(last_key(f));
        }
    }
    None
}

// Whether each key of the edge has an edge there that is like it.
fn is_covered(classes: &[u32], e: &MinEdge, edges: &[MinEdge]) -> bool
    ensures { IsTrue result ↔ IsCovered classes.now edges.now e.now }
{
    let last = last_key(e);
    let mut key = Key(e.range.lo());
    'pieces: while let Some(until) = like_until(classes, e, edges, key) {
        if until.0 >= last.0 {
            return true;
        }
        key = Key(until.0 + 1);
    }
    false
}

// Whether each of the edges is covered by the others.
fn are_covered(classes: &[u32], edges: &[MinEdge], others: &[MinEdge]) -> bool
    ensures { IsTrue result ↔ All (IsCovered classes.now others.now) edges.now }
{
    edges.iter().all(|e| is_covered(classes, e, others))
}

// Whether both ask the same conditions at every key and, on every letter, both step with the same list and to the same
// class or neither does.
pub(crate) fn step_alike(classes: &[u32], edges: &[MinEdge], others: &[MinEdge]) -> bool
    requires edges { AreSound edges.now }
    requires others { AreSound others.now }
    ensures { IsTrue result ↔ StepAlike classes.now edges.now others.now }
{
    are_covered(classes, edges, others) && are_covered(classes, others, edges)
}
