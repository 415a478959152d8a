// Literals.
ghost use Rattle.std.specs.Prelude.{◌≡◌, map, IfOk, All};
ghost use Rattle.rl_leaves.specs.Forms.{IsItem, IsLeaf};
ghost use Rattle.rl_leaves.specs.Literals.{character_item, characters_leaf, literal_leaf};

use crate::memory::push;
use crate::ranges::character_ranges;
use crate::text::{Character, characters_within, ignores_case};
use rl_draft::{Item, Leaf};
use rl_types::{Alphabet, List, Memory};
use std::alloc::Global;

fn character_item(
    alloc: Global,
    alphabet: Alphabet,
    folds: bool,
    c: Character,
) -> Result<Item, Memory>
    ensures value { IfOk result (λ item. item ≡ character_item alphabet folds c) }
    ensures form { IfOk result (IsItem alphabet) }
{
    let ranges = character_ranges(alloc, alphabet, folds, c.byte)?;
    Ok(Item {
        ranges: Some(ranges),
        starred: false,
    })
}

fn character_items(
    alloc: Global,
    alphabet: Alphabet,
    folds: bool,
    characters: &[Character],
) -> Result<List<Item>, Memory>
    ensures value { IfOk result (λ items. items ≡ map (character_item alphabet folds) characters.now) }
    ensures form { IfOk result (All (IsItem alphabet)) }
{
    let mut items = List::new(alloc);
    for c in characters {
        push(&mut items, character_item(alloc, alphabet, folds, *c)?)?;
    }
    Ok(items)
}

fn characters_leaf(
    alloc: Global,
    alphabet: Alphabet,
    folds: bool,
    characters: &[Character],
) -> Result<Leaf, Memory>
    ensures value { IfOk result (λ leaf. leaf ≡ characters_leaf alphabet folds characters.now) }
    ensures form { IfOk result (IsLeaf alphabet) }
{
    match characters {
        [] => Ok(Leaf::Null),
        [only] => Ok(Leaf::Set(character_ranges(alloc, alphabet, folds, only.byte)?)),
        [_, _, ..] => Ok(Leaf::Row(character_items(alloc, alphabet, folds, characters)?)),
    }
}

/// What a literal says, from its text with quotes and suffix: its characters one behind another, and the empty word where
/// there are none (the guide's section 2.3). An escaped newline gives no character; with the suffix `i` each ASCII letter
/// stands for both its cases. An `Err` is want of memory.
pub fn literal_leaf(alloc: Global, alphabet: Alphabet, text: &[u8]) -> Result<Leaf, Memory>
    ensures value { IfOk result (λ leaf. leaf ≡ literal_leaf alphabet text.now) }
    ensures form { IfOk result (IsLeaf alphabet) }
{
    let characters = characters_within(alloc, text)?;
    characters_leaf(alloc, alphabet, ignores_case(text), characters.as_slice())
}
