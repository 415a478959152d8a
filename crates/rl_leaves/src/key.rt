// Keys that numbers and literals write, and the ranges between them.
ghost use Rattle.std.specs.Prelude.{◌≡◌, ◌≤ℤ◌, ◌∷◌, [], true, false, IfOk};
ghost use Rattle.rl_draft.specs.declared.expression.Leaf.TheVariants as leaf;
ghost use Rattle.rl_types.specs.Alphabet.{has_key};
ghost use Rattle.rl_leaves.specs.Answers.{Gives};
ghost use Rattle.rl_leaves.specs.Forms.{IsLeaf};
ghost use Rattle.rl_leaves.specs.Keys.{first_key, character_key, key_leaf, range_leaf};

use crate::fault::{KeyFault, LeafFault};
use crate::ranges::{one_range, range_between};
use crate::text::{Character, characters, inside};
use rl_draft::Leaf;
use rl_types::{Alphabet, Key, Memory};
use std::alloc::Global;

fn has_key(alphabet: Alphabet, key: Key) -> bool
    ensures { result ≡ has_key alphabet key.0 }
{
    alphabet.least_key() <= key.0 && key.0 <= alphabet.greatest_key()
}

fn between(alloc: Global, lo: Key, hi: Key) -> Result<Leaf, Memory>
    requires { lo.0 ≤ℤ hi.0 }
    ensures { IfOk result (λ made. made ≡ leaf.Set (record { lo = lo.0; hi = hi.0 } ∷ [])) }
{
    let ranges = one_range(alloc, range_between(lo.0, hi.0))?;
    Ok(Leaf::Set(ranges))
}

/// A character whose key is from one key of the alphabet to another.
fn leaf_between(alloc: Global, alphabet: Alphabet, lo: Key, hi: Key) -> Result<Leaf, Memory>
    requires ordered { lo.0 ≤ℤ hi.0 }
    requires lower { has_key alphabet lo.0 ≡ true }
    requires upper { has_key alphabet hi.0 ≡ true }
    ensures value { IfOk result (λ made. made ≡ leaf.Set (record { lo = lo.0; hi = hi.0 } ∷ [])) }
    ensures form { IfOk result (IsLeaf alphabet) }
{
    let _ = alphabet;
    between(alloc, lo, hi)
}

/// The key of the first character.
fn first_key(alphabet: Alphabet, characters: &[Character]) -> Key
    ensures { result ≡ first_key alphabet characters.now }
{
    match characters {
        [] => alphabet.key_of(0),
        [first, ..] => alphabet.key_of(first.byte),
    }
}

/// The key of a literal of one character without the suffix `i`, as it stands at the end of a range. An `Err` is want of
/// memory.
pub fn character_key(alloc: Global, alphabet: Alphabet, text: &[u8]) -> Result<Key, Memory>
    ensures { IfOk result (λ key. key ≡ character_key alphabet text.now) }
{
    let characters = characters(alloc, inside(text))?;
    Ok(first_key(alphabet, characters.as_slice()))
}

/// What a number says that stands alone: the character with this key (the guide's section 2.3). An `Err` is `Outside`
/// exactly where the alphabet has no such key, or want of memory.
pub fn key_leaf(alloc: Global, alphabet: Alphabet, key: Key) -> Result<Leaf, LeafFault>
    ensures value { Gives (key_leaf alphabet key.0) result }
    ensures form { IfOk result (IsLeaf alphabet) }
{
    if !has_key(alphabet, key) {
        return Err(LeafFault::Keys(KeyFault::Outside));
    }
    match leaf_between(alloc, alphabet, key, key) {
        Ok(leaf) => Ok(leaf),
        Err(Memory) => Err(LeafFault::Memory),
    }
}

/// What a range says: a character whose key is from `lo` to `hi` (the guide's section 2.3). An `Err` is the fault that is
/// told first in the text: `Outside` where the alphabet has no key `lo`; `Reversed` where `lo` is above `hi`;
/// `UpperOutside` where the alphabet has no key `hi`; or want of memory.
pub fn range_leaf(alloc: Global, alphabet: Alphabet, lo: Key, hi: Key) -> Result<Leaf, LeafFault>
    ensures value { Gives (range_leaf alphabet lo.0 hi.0) result }
    ensures form { IfOk result (IsLeaf alphabet) }
{
    if !has_key(alphabet, lo) {
        return Err(LeafFault::Keys(KeyFault::Outside));
    }
    if hi.0 < lo.0 {
        return Err(LeafFault::Keys(KeyFault::Reversed));
    }
    if !has_key(alphabet, hi) {
        return Err(LeafFault::Keys(KeyFault::UpperOutside));
    }
    match leaf_between(alloc, alphabet, lo, hi) {
        Ok(leaf) => Ok(leaf),
        Err(Memory) => Err(LeafFault::Memory),
    }
}
