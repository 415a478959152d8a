//! The values in code: the position, the character, and the states of entries.
ghost use Rattle.std.specs.Prelude.{◌≡◌, ◌++◌, ◌-◌, ◌&&◌, length, drop, position, OnOk, IfOk};
ghost use Rattle.std.specs.Str.{bytes_eq};
ghost use Rattle.std.specs.Fmt.{signed_decimal};
ghost use Rattle.rl_code.specs.declared.word.CodeWord.TheVariants as w;
ghost use Rattle.rl_code.specs.Texts.{first_word, is_outside};
ghost use Rattle.rl_cexec.specs.Names.{filled};
ghost use Rattle.rl_cexec.specs.Code as code;

use crate::names::{is_text, push_filled};
use itoa::Buffer;
use rl_arrays::Arrays;
use rl_bytes::{behind_blanks, code_word, cut_word, in_word, is_outside, mode_behind};
use rl_code::CodeWord;
use rl_lexical::Mode;
use rl_model::Frame;
use std::alloc::AllocError;

/// The place of a name among those of the entries.
fn place_of(a: &Arrays, name: &[u8]) -> Option<usize>
    ensures { result ≡ position (bytes_eq name.now) a.now.entry_names }
{
    a.entry_names
        .as_slice()
        .iter()
        .position(|n| is_text(name, n.bytes()))
}

/// The state of the entry of a name.
fn state_named(a: &Arrays, name: &[u8]) -> i64
    ensures { result ≡ code.state_named a.now name.now }
{
    match place_of(a, name) {
        Some(entry) => match a.entry_states.as_slice().get(entry) {
            Some(state) => *state,
            None => 0,
        },
        None => 0,
    }
}

/// Writes the state of the entry of a name.
pub(crate) fn push_state(text: &mut Vec<u8>, a: &Arrays, name: &[u8]) -> Result<(), AllocError>
    ensures { OnOk result (text.new.items ≡ text.old.items ++ signed_decimal (code.state_named a.now name.now)) }
{
    text.extend_from_slice(Buffer::new().format(state_named(a, name)).as_bytes())
}

/// All behind the first byte.
fn behind_first(text: &[u8]) -> &[u8]
    ensures { result.now ≡ drop 1 text.now }
{
    match text {
        [] => text,
        [_, rest @ ..] => rest,
    }
}

/// The name in the parentheses behind a word.
fn name_behind(text: &[u8]) -> &[u8]
    ensures { result.now ≡ code.name_behind text.now }
{
    let (_, behind) = cut_word(text);
    let (name, _) = cut_word(behind_blanks(behind_first(behind_blanks(behind))));
    name
}

/// How many bytes stand before the first `)`.
fn up_to_parenthesis(text: &[u8]) -> usize
    ensures { result ≡ code.up_to_parenthesis text.now }
{
    text.iter().take_while(|b| **b != b')').count()
}

/// Writes a byte as it stands.
pub(crate) fn push_first(text: &mut Vec<u8>, from: &[u8]) -> Result<usize, AllocError>
    ensures text { OnOk result (text.new.items ≡ text.old.items ++ (code.as_it_stands from.now).text) }
    ensures skip { IfOk result (λ n. n ≡ (code.as_it_stands from.now).skip) }
{
    if let Some((first, _)) = from.split_first() {
        text.extend_from_slice(&[*first])?;
    }
    Ok(0)
}

/// How many bytes of the word that a text begins with are behind its first.
fn behind_in_word(from: &[u8]) -> usize
    ensures { result ≡ length (first_word from.now) - 1 }
{
    let (word, _) = cut_word(from);
    if word.is_empty() { 0 } else { word.len() - 1 }
}

/// Writes a text in place of a word, behind a blank.
fn push_in_place(
    text: &mut Vec<u8>,
    a: &Arrays,
    frame: &Frame,
    from: &[u8],
    printed: &[u8],
) -> Result<usize, AllocError>
    ensures text { OnOk result (text.new.items ≡ text.old.items ++ (code.in_place from.now (filled a.now.name frame.now printed.now)).text) }
    ensures skip { IfOk result (λ n. n ≡ (code.in_place from.now (filled a.now.name frame.now printed.now)).skip) }
{
    text.extend_from_slice(b" ")?;
    push_filled(text, a.name.bytes(), frame, printed)?;
    Ok(behind_in_word(from))
}

/// Writes the state of an entry in place of `fentry` and its parentheses.
fn push_entry(
    text: &mut Vec<u8>,
    a: &Arrays,
    frame: &Frame,
    from: &[u8],
) -> Result<usize, AllocError>
    ensures text { OnOk result (text.new.items ≡ text.old.items ++ (code.value a.now frame.now w.Entry from.now).text) }
    ensures skip { IfOk result (λ n. n ≡ (code.value a.now frame.now w.Entry from.now).skip) }
{
    let _ = frame;
    text.extend_from_slice(b" ")?;
    push_state(text, a, name_behind(from))?;
    Ok(up_to_parenthesis(from))
}

/// Writes what stands in place of a word that is a value; another word stands as it is. The answer is how many bytes behind
/// its first are done with that.
pub(crate) fn push_value(
    text: &mut Vec<u8>,
    a: &Arrays,
    frame: &Frame,
    word: CodeWord,
    from: &[u8],
) -> Result<usize, AllocError>
    ensures text { OnOk result (text.new.items ≡ text.old.items ++ (code.value a.now frame.now word from.now).text) }
    ensures skip { IfOk result (λ n. n ≡ (code.value a.now frame.now word from.now).skip) }
{
    match word {
        CodeWord::Position => push_in_place(text, a, frame, from, b"p"),
        CodeWord::Character => push_in_place(text, a, frame, from, b"(*p)"),
        CodeWord::Entry => push_entry(text, a, frame, from),
        CodeWord::Control(_) => push_first(text, from),
        CodeWord::LeftOut => push_first(text, from),
    }
}

/// Whether a word of code may begin here.
pub(crate) fn starts_word(fresh: bool, mode: Mode) -> bool
    ensures { result ≡ (fresh && is_outside mode) }
{
    fresh && is_outside(mode)
}

/// Writes what is printed at a byte of code in which only values are replaced.
#[tactic(auto, unfolding(crate::specs::Code::turn))]
fn push_turn(
    text: &mut Vec<u8>,
    a: &Arrays,
    frame: &Frame,
    skip: usize,
    fresh: bool,
    mode: Mode,
    from: &[u8],
) -> Result<usize, AllocError>
    ensures text { OnOk result (text.new.items ≡ text.old.items ++ (code.turn (code.value a.now frame.now) skip fresh mode from.now).text) }
    ensures skip { IfOk result (λ n. n ≡ (code.turn (code.value a.now frame.now) skip fresh mode from.now).skip) }
{
    if skip > 0 {
        return Ok(skip - 1);
    }
    if !starts_word(fresh, mode) {
        return push_first(text, from);
    }
    match code_word(cut_word(from).0) {
        Some(word) => push_value(text, a, frame, word, from),
        None => push_first(text, from),
    }
}

/// Writes code in which only values are replaced.
#[tactic(auto, unfolding(crate::specs::Code::code_from))]
pub(crate) fn push_values(
    text: &mut Vec<u8>,
    a: &Arrays,
    frame: &Frame,
    from: &[u8],
) -> Result<(), AllocError>
    ensures { OnOk result (text.new.items ≡ text.old.items ++ code.values_text a.now frame.now from.now) }
{
    let mut skip = 0;
    let mut fresh = true;
    let mut mode = Mode::Code(0);
    for at in 0..from.len() {
        skip = push_turn(text, a, frame, skip, fresh, mode, &from[at..])?;
        fresh = !in_word(from[at]);
        mode = mode_behind(mode, from[at]);
    }
    Ok(())
}
