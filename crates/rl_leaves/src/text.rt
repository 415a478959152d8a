// The characters that stand in a token's text.
ghost use Rattle.std.specs.Prelude.{◌≡◌, ◌++◌, ◌-◌, false, length, take, drop, option_to_list, IfOk};
ghost use Rattle.rl_grammar.specs.Literals.{escaped, inside};
ghost use Rattle.rl_leaves.specs.Texts.{character, slash_behind, characters, ignores_case, within, characters_within, is_plain, begins_with, without};

use crate::memory::push;
use rl_types::{List, Memory};
use std::alloc::Global;

/// A character of a token.
#[derive(Clone, Copy, Debug, PartialEq, Eq)]
pub struct Character {
    /// What it stands for.
    pub byte: u8,
    /// Whether a backslash stands before it.
    pub is_escaped: bool,
}

/// What a byte behind a backslash stands for (the guide's section 2.3).
fn escaped(byte: u8) -> u8
    ensures { result ≡ escaped byte }
{
    match byte {
        b'0' => 0,
        b'a' => 7,
        b'b' => 8,
        b't' => 9,
        b'n' => 10,
        b'v' => 11,
        b'f' => 12,
        b'r' => 13,
        _ => byte,
    }
}

/// The character that a byte is, behind a backslash or not.
fn character_of(slash: bool, byte: u8) -> Option<Character>
    ensures { result ≡ character slash byte }
{
    if slash {
        if byte == b'\n' {
            None
        } else {
            Some(Character {
                byte: escaped(byte),
                is_escaped: true,
            })
        }
    } else if byte == b'\\' {
        None
    } else {
        Some(Character {
            byte,
            is_escaped: false,
        })
    }
}

/// Whether the byte is a backslash that another one follows.
fn slash_behind(slash: bool, byte: u8) -> bool
    ensures { result ≡ slash_behind slash byte }
{
    !slash && byte == b'\\'
}

fn push_character(found: &mut List<Character>, slash: bool, byte: u8) -> Result<(), Memory>
    ensures { IfOk result (λ _. found.new ≡ found.old ++ option_to_list (character slash byte)) }
{
    match character_of(slash, byte) {
        None => Ok(()),
        Some(character) => push(found, character),
    }
}

/// The characters that bytes stand for. An `Err` is want of memory.
#[tactic(auto, using(crate::proofs::TextLaws::one_more, crate::proofs::TextLaws::ends))]
pub fn characters(alloc: Global, bytes: &[u8]) -> Result<List<Character>, Memory>
    ensures { IfOk result (λ found. found ≡ characters false bytes.now) }
{
    let mut found = List::new(alloc);
    let mut slash = false;
    for byte in bytes {
        push_character(&mut found, slash, *byte)?;
        slash = slash_behind(slash, *byte);
    }
    Ok(found)
}

/// Whether the text ends with the suffix `i`.
pub fn ignores_case(text: &[u8]) -> bool
    ensures { result ≡ ignores_case text.now }
{
    let len = text.len();
    if len == 0 {
        return false;
    }
    text[len - 1] == b'i'
}

/// What stands between the first and the last byte of a text.
pub fn inside(text: &[u8]) -> &[u8]
    ensures { result.now ≡ inside text.now }
{
    match text {
        [_, middle @ .., _] => middle,
        _ => &[],
    }
}

/// What stands between the first byte of a text and the last two.
fn inside_suffixed(text: &[u8]) -> &[u8]
    ensures { result.now ≡ take (length text.now - 3) (drop 1 text.now) }
{
    match text {
        [_, middle @ .., _, _] => middle,
        _ => &[],
    }
}

/// What stands between the first sign of a text and its last one, without a suffix.
fn within(text: &[u8]) -> &[u8]
    ensures { result.now ≡ within text.now }
{
    if ignores_case(text) {
        inside_suffixed(text)
    } else {
        inside(text)
    }
}

/// The characters of a literal or a regular expression. An `Err` is want of memory.
pub fn characters_within(alloc: Global, text: &[u8]) -> Result<List<Character>, Memory>
    ensures { IfOk result (λ found. found ≡ characters_within text.now) }
{
    characters(alloc, within(text))
}

/// Whether a character is this byte without a backslash.
pub fn is_plain(byte: u8, c: Character) -> bool
    ensures { result ≡ is_plain byte c }
{
    !c.is_escaped && c.byte == byte
}

/// Whether characters begin with this byte without a backslash.
pub fn begins_with(byte: u8, characters: &[Character]) -> bool
    ensures { result ≡ begins_with byte characters.now }
{
    match characters {
        [] => false,
        [first, ..] => is_plain(byte, *first),
    }
}

/// What is behind the first character.
fn behind_first(characters: &[Character]) -> &[Character]
    ensures { result.now ≡ drop 1 characters.now }
{
    match characters {
        [] => characters,
        [_, rest @ ..] => rest,
    }
}

/// What is left behind this byte, where it stands at the front without a backslash.
pub fn without(byte: u8, characters: &[Character]) -> &[Character]
    ensures { result.now ≡ without byte characters.now }
{
    if begins_with(byte, characters) {
        behind_first(characters)
    } else {
        characters
    }
}
