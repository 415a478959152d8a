// Sets.
ghost use Rattle.std.specs.Prelude.{◌≡◌, false, IfOk};
ghost use Rattle.rl_grammar.specs.Literals.{inside};
ghost use Rattle.rl_leaves.specs.Answers.{Gives};
ghost use Rattle.rl_leaves.specs.Forms.{IsLeaf};
ghost use Rattle.rl_leaves.specs.Sets.{character_set_leaf, checked, set_leaf};
ghost use Rattle.rl_leaves.specs.CharacterSets.{set_of};
ghost use Rattle.rl_leaves.specs.Texts.{characters};

use crate::character_set::{CharacterSet, set_of};
use crate::fault::{KeyFault, LeafFault};
use crate::ranges::set_ranges;
use crate::text::{characters, inside};
use rl_draft::Leaf;
use rl_types::{Alphabet, Memory};
use std::alloc::Global;

fn character_set_leaf(alloc: Global, alphabet: Alphabet, set: &CharacterSet) -> Result<Leaf, Memory>
    ensures value { IfOk result (λ leaf. leaf ≡ character_set_leaf alphabet set.now) }
    ensures form { IfOk result (IsLeaf alphabet) }
{
    if set.is_empty_word() {
        Ok(Leaf::Null)
    } else {
        Ok(Leaf::Set(set_ranges(alloc, alphabet, false, set)?))
    }
}

fn checked(alloc: Global, alphabet: Alphabet, set: &CharacterSet) -> Result<Leaf, LeafFault>
    ensures value { Gives (checked alphabet set.now) result }
    ensures form { IfOk result (IsLeaf alphabet) }
{
    if set.is_reversed(alphabet) {
        return Err(LeafFault::Keys(KeyFault::Reversed));
    }
    match character_set_leaf(alloc, alphabet, set) {
        Ok(leaf) => Ok(leaf),
        Err(Memory) => Err(LeafFault::Memory),
    }
}

fn set_in(alloc: Global, text: &[u8]) -> Result<CharacterSet, Memory>
    ensures { IfOk result (λ set. set ≡ set_of (characters false (inside text.now))) }
{
    let characters = characters(alloc, inside(text))?;
    set_of(alloc, characters.as_slice())
}

/// What a set says, from its text with brackets: one of its characters, and the empty word for `[]` (the guide's section
/// 2.3). An `Err` is `Reversed` exactly where the lower end of one of its ranges is above the upper one by the alphabet's
/// keys, or want of memory.
pub fn set_leaf(alloc: Global, alphabet: Alphabet, text: &[u8]) -> Result<Leaf, LeafFault>
    ensures value { Gives (set_leaf alphabet text.now) result }
    ensures form { IfOk result (IsLeaf alphabet) }
{
    match set_in(alloc, text) {
        Ok(set) => checked(alloc, alphabet, &set),
        Err(Memory) => Err(LeafFault::Memory),
    }
}
