// Sets of characters as they are written.
ghost use Rattle.std.specs.Prelude.{◌≡◌, drop, IfOk};
ghost use Rattle.rl_leaves.specs.CharacterSets.{has_none, is_upper, is_lower, upper_end, span_at, behind_span, spans, set_of, every_character, is_empty_word, byte_key, range_of, is_reversed, set_is_reversed, other_case};

use crate::memory::push;
use crate::text::{Character, begins_with, is_plain, without};
use rl_types::{Alphabet, List, Memory};
use std::alloc::Global;

/// The characters from one to another; one character where both are the same.
#[derive(Clone, Copy, Debug, PartialEq, Eq)]
pub struct Span {
    pub lower: u8,
    pub upper: u8,
}

/// A set of characters.
#[derive(Debug, Drop)]
pub struct CharacterSet {
    /// Whether it has all characters but those of its spans.
    pub is_negated: bool,
    /// Its ranges and single characters, in order.
    pub spans: List<Span>,
}

/// The upper end of a range whose lower end stands before the characters.
fn upper_end(behind: &[Character]) -> Option<Character>
    ensures { result ≡ upper_end behind.now }
{
    match behind {
        [] | [_] => None,
        [sign, upper, ..] => {
            if is_plain(b'-', *sign) {
                Some(*upper)
            } else {
                None
            }
        }
    }
}

/// What a set names with a character and those behind it.
fn span_at(lower: Character, behind: &[Character]) -> Span
    ensures { result ≡ span_at lower behind.now }
{
    match upper_end(behind) {
        None => Span {
            lower: lower.byte,
            upper: lower.byte,
        },
        Some(upper) => Span {
            lower: lower.byte,
            upper: upper.byte,
        },
    }
}

/// What is behind the first two characters.
fn behind_two(characters: &[Character]) -> &[Character]
    ensures { result.now ≡ drop 2 characters.now }
{
    match characters {
        [] | [_] => &[],
        [_, _, rest @ ..] => rest,
    }
}

/// What is left behind that.
fn behind_span(behind: &[Character]) -> &[Character]
    ensures { result.now ≡ behind_span behind.now }
{
    if upper_end(behind).is_some() {
        behind_two(behind)
    } else {
        behind
    }
}

/// The ranges and single characters that stand in a set. An `Err` is want of memory.
fn spans(alloc: Global, characters: &[Character]) -> Result<List<Span>, Memory>
    ensures { IfOk result (λ found. found ≡ spans characters.now) }
{
    let mut found = List::new(alloc);
    let mut rest = characters;
    'spans: while let Some((first, behind)) = rest.split_first() {
        push(&mut found, span_at(*first, behind))?;
        rest = behind_span(behind);
    }
    Ok(found)
}

/// The set that stands between `[` and `]`. An `Err` is want of memory.
pub fn set_of(alloc: Global, characters: &[Character]) -> Result<CharacterSet, Memory>
    ensures { IfOk result (λ set. set ≡ set_of characters.now) }
{
    let spans = spans(alloc, without(b'^', characters))?;
    Ok(CharacterSet {
        is_negated: begins_with(b'^', characters),
        spans,
    })
}

/// The set of all characters.
pub fn every_character(alloc: Global) -> CharacterSet
    ensures { result ≡ every_character }
{
    CharacterSet {
        is_negated: true,
        spans: List::new(alloc),
    }
}

impl CharacterSet {
    ghost use Rattle.std.specs.Prelude.{◌≡◌};
    ghost use Rattle.rl_leaves.specs.CharacterSets.{is_empty_word, set_is_reversed};

    /// Whether it is `[]`, which stands for the empty word.
    pub fn is_empty_word(&self) -> bool
        ensures { result ≡ is_empty_word self.now }
    {
        !self.is_negated && has_none(self.spans.as_slice())
    }

    /// Whether the lower end of one of its ranges is above the upper one.
    pub fn is_reversed(&self, alphabet: Alphabet) -> bool
        ensures { result ≡ set_is_reversed alphabet self.now }
    {
        self.spans
            .as_slice()
            .iter()
            .any(|span| is_reversed(alphabet, *span))
    }
}

fn has_none(spans: &[Span]) -> bool
    ensures { result ≡ has_none spans.now }
{
    match spans {
        [] => true,
        [_, ..] => false,
    }
}

/// The key of a byte.
pub fn byte_key(alphabet: Alphabet, byte: u8) -> i64
    ensures { result ≡ byte_key alphabet byte }
{
    alphabet.key_of(byte).0
}

/// Whether the lower end is above the upper one.
fn is_reversed(alphabet: Alphabet, span: Span) -> bool
    ensures { result ≡ is_reversed alphabet span }
{
    byte_key(alphabet, span.upper) < byte_key(alphabet, span.lower)
}

/// Whether it is the key of a capital ASCII letter.
pub fn is_upper(key: i64) -> bool
    ensures { result ≡ is_upper key }
{
    65 <= key && key <= 90
}

/// Whether it is the key of a small ASCII letter.
pub fn is_lower(key: i64) -> bool
    ensures { result ≡ is_lower key }
{
    97 <= key && key <= 122
}

/// The key of an ASCII letter in the other case; any other key is its own.
pub fn other_case(key: i64) -> i64
    ensures { result ≡ other_case key }
{
    if is_upper(key) {
        key + 32
    } else if is_lower(key) {
        key - 32
    } else {
        key
    }
}
