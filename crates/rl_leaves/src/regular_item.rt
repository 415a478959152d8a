// The items of regular expressions as they are written.
ghost use Rattle.std.specs.Prelude.{◌≡◌, ◌+◌, ◌≤◌, length, take, drop, IfOk};
ghost use Rattle.rl_leaves.specs.RegularExpressions.{before_close, named_at, behind_named, regular_items};

use crate::character_set::{CharacterSet, every_character, set_of};
use crate::memory::push;
use crate::text::{Character, begins_with, is_plain, without};
use rl_types::{List, Memory};
use std::alloc::Global;

/// What an item names.
#[derive(Debug, Drop)]
pub enum Named {
    /// One character.
    Character(u8),
    /// A character of a set, or the empty word.
    Set(CharacterSet),
}

/// An item of a regular expression.
#[derive(Debug, Drop)]
pub struct RegularItem {
    pub names: Named,
    /// Whether a `*` stands behind it.
    pub is_starred: bool,
}

/// How many characters stand before the `]` that ends a set.
fn before_close(characters: &[Character]) -> usize
    ensures value { result ≡ before_close characters.now }
    ensures bound { result ≤ length characters.now }
{
    characters
        .iter()
        .take_while(|c| !is_plain(b']', **c))
        .count()
}

/// What stands before the `]` that ends a set.
fn in_set(characters: &[Character]) -> &[Character]
    ensures { result.now ≡ take (before_close characters.now) characters.now }
{
    &characters[..before_close(characters)]
}

/// What stands behind the `]` that ends a set.
fn behind_set(characters: &[Character]) -> &[Character]
    ensures { result.now ≡ drop (before_close characters.now + 1) characters.now }
{
    let len = before_close(characters);
    if len == characters.len() {
        return &[];
    }
    &characters[len + 1..]
}

/// What an item names that begins with a character. An `Err` is want of memory.
fn named_at(alloc: Global, first: Character, behind: &[Character]) -> Result<Named, Memory>
    ensures { IfOk result (λ named. named ≡ named_at first behind.now) }
{
    if is_plain(b'[', first) {
        Ok(Named::Set(set_of(alloc, in_set(behind))?))
    } else if is_plain(b'.', first) {
        Ok(Named::Set(every_character(alloc)))
    } else {
        Ok(Named::Character(first.byte))
    }
}

/// What stands behind that.
fn behind_named(first: Character, behind: &[Character]) -> &[Character]
    ensures { result.now ≡ behind_named first behind.now }
{
    if is_plain(b'[', first) {
        behind_set(behind)
    } else {
        behind
    }
}

/// The items that characters name. An `Err` is want of memory.
pub fn regular_items(alloc: Global, characters: &[Character]) -> Result<List<RegularItem>, Memory>
    ensures { IfOk result (λ items. items ≡ regular_items characters.now) }
{
    let mut items = List::new(alloc);
    let mut rest = characters;
    'items: while let Some((first, behind)) = rest.split_first() {
        let names = named_at(alloc, *first, behind)?;
        let tail = behind_named(*first, behind);
        let is_starred = begins_with(b'*', tail);
        push(&mut items, RegularItem { names, is_starred })?;
        rest = without(b'*', tail);
    }
    Ok(items)
}
