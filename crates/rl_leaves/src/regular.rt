// Regular expressions.
ghost use Rattle.std.specs.Prelude.{◌≡◌, map, IfOk, All, MatchOption};
ghost use Rattle.std.specs.List.{list_any};
ghost use Rattle.rl_leaves.specs.Answers.{Gives};
ghost use Rattle.rl_leaves.specs.Forms.{AreRanges, IsItem, IsLeaf};
ghost use Rattle.rl_leaves.specs.Texts.{characters_within};
ghost use Rattle.rl_leaves.specs.RegularExpressions.{set_ranges_or_none, named_ranges, item_of, item_is_reversed, items_leaf, checked, regular_items, regular_leaf};

use crate::character_set::CharacterSet;
use crate::fault::{KeyFault, LeafFault};
use crate::memory::push;
use crate::ranges::{character_ranges, set_ranges};
use crate::regular_item::{Named, RegularItem, regular_items};
use crate::text::{characters_within, ignores_case};
use rl_draft::{Item, Leaf};
use rl_types::{Alphabet, KeyRange, List, Memory};
use std::alloc::Global;

fn set_ranges_or_none(
    alloc: Global,
    alphabet: Alphabet,
    folds: bool,
    set: &CharacterSet,
) -> Result<Option<List<KeyRange>>, Memory>
    ensures value { IfOk result (λ ranges. ranges ≡ set_ranges_or_none alphabet folds set.now) }
    ensures form { IfOk result (λ ranges. MatchOption ranges (Unit {0}) (AreRanges alphabet)) }
{
    if set.is_empty_word() {
        Ok(None)
    } else {
        Ok(Some(set_ranges(alloc, alphabet, folds, set)?))
    }
}

fn named_ranges(
    alloc: Global,
    alphabet: Alphabet,
    folds: bool,
    named: &Named,
) -> Result<Option<List<KeyRange>>, Memory>
    ensures value { IfOk result (λ ranges. ranges ≡ named_ranges alphabet folds named.now) }
    ensures form { IfOk result (λ ranges. MatchOption ranges (Unit {0}) (AreRanges alphabet)) }
{
    match named {
        Named::Character(byte) => Ok(Some(character_ranges(alloc, alphabet, folds, *byte)?)),
        Named::Set(set) => set_ranges_or_none(alloc, alphabet, folds, set),
    }
}

fn item_of(
    alloc: Global,
    alphabet: Alphabet,
    folds: bool,
    item: &RegularItem,
) -> Result<Item, Memory>
    ensures value { IfOk result (λ made. made ≡ item_of alphabet folds item.now) }
    ensures form { IfOk result (IsItem alphabet) }
{
    let ranges = named_ranges(alloc, alphabet, folds, &item.names)?;
    Ok(Item {
        ranges,
        starred: item.is_starred,
    })
}

fn items_of(
    alloc: Global,
    alphabet: Alphabet,
    folds: bool,
    items: &[RegularItem],
) -> Result<List<Item>, Memory>
    ensures value { IfOk result (λ made. made ≡ map (item_of alphabet folds) items.now) }
    ensures form { IfOk result (All (IsItem alphabet)) }
{
    let mut made = List::new(alloc);
    for item in items {
        push(&mut made, item_of(alloc, alphabet, folds, item)?)?;
    }
    Ok(made)
}

fn item_is_reversed(alphabet: Alphabet, item: &RegularItem) -> bool
    ensures { result ≡ item_is_reversed alphabet item.now }
{
    match &item.names {
        Named::Character(_) => false,
        Named::Set(set) => set.is_reversed(alphabet),
    }
}

fn some_reversed(alphabet: Alphabet, items: &[RegularItem]) -> bool
    ensures { result ≡ list_any (item_is_reversed alphabet) items.now }
{
    items.iter().any(|item| item_is_reversed(alphabet, item))
}

fn items_leaf(
    alloc: Global,
    alphabet: Alphabet,
    folds: bool,
    items: &[RegularItem],
) -> Result<Leaf, Memory>
    ensures value { IfOk result (λ made. made ≡ items_leaf alphabet folds items.now) }
    ensures form { IfOk result (IsLeaf alphabet) }
{
    match items {
        [] => Ok(Leaf::Null),
        [_, ..] => Ok(Leaf::Row(items_of(alloc, alphabet, folds, items)?)),
    }
}

fn checked(
    alloc: Global,
    alphabet: Alphabet,
    folds: bool,
    items: &[RegularItem],
) -> Result<Leaf, LeafFault>
    ensures value { Gives (checked alphabet folds items.now) result }
    ensures form { IfOk result (IsLeaf alphabet) }
{
    if some_reversed(alphabet, items) {
        return Err(LeafFault::Keys(KeyFault::Reversed));
    }
    match items_leaf(alloc, alphabet, folds, items) {
        Ok(made) => Ok(made),
        Err(Memory) => Err(LeafFault::Memory),
    }
}

fn items_in(alloc: Global, text: &[u8]) -> Result<List<RegularItem>, Memory>
    ensures { IfOk result (λ items. items ≡ regular_items (characters_within text.now)) }
{
    let characters = characters_within(alloc, text)?;
    regular_items(alloc, characters.as_slice())
}

/// What a regular expression says, from its text with both `/` and its suffix: its items one behind another, and the empty
/// word where there are none (the guide's section 2.3). With the suffix `i` each ASCII letter that an item names, also
/// within a range, stands for both its cases, in a set before its `^` is applied. An `Err` is `Reversed` exactly where the
/// lower end of a range of one of its sets is above the upper one by the alphabet's keys, or want of memory.
pub fn regular_leaf(alloc: Global, alphabet: Alphabet, text: &[u8]) -> Result<Leaf, LeafFault>
    ensures value { Gives (regular_leaf alphabet text.now) result }
    ensures form { IfOk result (IsLeaf alphabet) }
{
    match items_in(alloc, text) {
        Ok(items) => checked(alloc, alphabet, ignores_case(text), items.as_slice()),
        Err(Memory) => Err(LeafFault::Memory),
    }
}
