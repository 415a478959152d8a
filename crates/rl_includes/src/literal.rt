// The name that a literal writes.
ghost use Rattle.std.specs.Prelude.{◌≡◌, ◌≤◌, ◌++◌, false, length, OnOk, IfOk, option_to_list};
ghost use Rattle.rl_grammar.specs.Literals.{escaped, characters, inside, ends_as_it_begins};
ghost use Rattle.rl_includes.specs.Characters.{slash_behind, character};
ghost use Rattle.rl_includes.specs.Names.{unsuffixed, written_name};

use crate::memory::push;
use rl_types::{List, Memory};
use std::alloc::Global;

/// What a byte behind a backslash stands for.
fn escaped(byte: u8) -> u8
    ensures { result ≡ escaped byte }
{
    match byte {
        b'0' => 0,
        b'a' => 7,
        b'b' => 8,
        b't' => 9,
        b'n' => 10,
        b'v' => 11,
        b'f' => 12,
        b'r' => 13,
        _ => byte,
    }
}

/// The character that a byte is, behind a backslash or not.
fn character(slash: bool, byte: u8) -> Option<u8>
    ensures { result ≡ character slash byte }
{
    if slash {
        if byte == b'\n' {
            None
        } else {
            Some(escaped(byte))
        }
    } else if byte == b'\\' {
        None
    } else {
        Some(byte)
    }
}

/// Whether the byte is a backslash that another one follows.
fn slash_behind(slash: bool, byte: u8) -> bool
    ensures { result ≡ slash_behind slash byte }
{
    !slash && byte == b'\\'
}

fn push_character(found: &mut List<u8>, slash: bool, byte: u8) -> Result<(), Memory>
    ensures { OnOk result (found.new ≡ found.old ++ option_to_list (character slash byte)) }
{
    match character(slash, byte) {
        None => Ok(()),
        Some(character) => push(found, character),
    }
}

/// The characters that the bytes between quotes stand for.
#[tactic(auto, using(crate::proofs::CharacterLaws::one_more))]
fn characters(alloc: Global, bytes: &[u8]) -> Result<List<u8>, Memory>
    ensures { IfOk result (λ found. found ≡ characters false bytes.now) }
{
    let mut found = List::new(alloc);
    let mut slash = false;
    for byte in bytes {
        push_character(&mut found, slash, *byte)?;
        slash = slash_behind(slash, *byte);
    }
    Ok(found)
}

/// Whether a literal ends with the quote that it begins with.
fn ends_as_it_begins(text: &[u8]) -> bool
    ensures { result ≡ ends_as_it_begins text.now }
{
    let len = text.len();
    if len < 2 {
        return false;
    }
    text[..1] == text[len - 1..]
}

/// A literal without its suffix.
fn unsuffixed(text: &[u8]) -> &[u8]
    ensures { result.now ≡ unsuffixed text.now }
{
    if ends_as_it_begins(text) {
        return text;
    }
    match text {
        [] => text,
        [front @ .., _] => front,
    }
}

/// What stands between the quotes of a literal.
fn inside(text: &[u8]) -> &[u8]
    ensures { result.now ≡ inside text.now }
{
    match text {
        [_, middle @ .., _] => middle,
        _ => &[],
    }
}

/// The name that a literal writes.
pub fn written_name(alloc: Global, text: &[u8]) -> Result<List<u8>, Memory>
    ensures { IfOk result (λ name. name ≡ written_name text.now) }
{
    characters(alloc, inside(unsuffixed(text)))
}
