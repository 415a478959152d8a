//! The names in the printed texts.
ghost use Rattle.std.specs.Prelude.{◌≡◌, ◌++◌, ◌==◌, nat_eq, if◌then◌else◌, codes, drop, OnOk, MatchOption, None, Some};
ghost use Rattle.std.specs.List.{list_any, starts_with};
ghost use Rattle.std.specs.Str.{bytes_eq};
ghost use Rattle.rl_lexical.specs.Words as words;
ghost use Rattle.rl_cexec.specs.Names as names;

use rl_bytes::{cut_word, in_word};
use rl_model::Frame;
use rl_types::{Code, Name};
use std::alloc::AllocError;

/// Whether the bytes are these.
pub(crate) fn is_text(bytes: &[u8], text: &[u8]) -> bool
    ensures { result ≡ bytes_eq bytes.now text.now }
{
    bytes == text
}

/// Writes a text of the source in one line.
fn push_one_line(text: &mut Vec<u8>, source: &[u8]) -> Result<(), AllocError>
    ensures { OnOk result (text.new.items ≡ text.old.items ++ names.one_line source.now) }
{
    for b in source {
        text.extend_from_slice(&[if *b == b'\n' { b' ' } else { *b }])?;
    }
    Ok(())
}

/// The text that a `variable` statement gives for a name.
fn variable_text<'a>(variables: &'a [(Name, Code)], name: &[u8]) -> Option<&'a [u8]>
    ensures { MatchOption result (names.variable_text variables.now name.now ≡ None) (λ t. names.variable_text variables.now name.now ≡ Some t.now) }
{
    for v in variables {
        if is_text(v.0.bytes(), name) {
            return Some(v.1.bytes());
        }
    }
    None
}

/// Whether it is a name behind which a `variable` has its text.
fn is_variable(name: &[u8]) -> bool
    ensures { result ≡ words.is_variable name.now }
{
    is_text(name, b"p")
        || is_text(name, b"pe")
        || is_text(name, b"eof")
        || is_text(name, b"cs")
        || is_text(name, b"top")
        || is_text(name, b"stack")
        || is_text(name, b"act")
        || is_text(name, b"ts")
        || is_text(name, b"te")
}

/// Whether it has the text of `access` before it.
fn is_accessed(name: &[u8]) -> bool
    ensures { result ≡ names.is_accessed name.now }
{
    is_text(name, b"cs")
        || is_text(name, b"top")
        || is_text(name, b"stack")
        || is_text(name, b"act")
        || is_text(name, b"ts")
        || is_text(name, b"te")
}

fn push_accessed(text: &mut Vec<u8>, frame: &Frame, name: &[u8]) -> Result<(), AllocError>
    ensures { OnOk result (text.new.items ≡ text.old.items ++ names.accessed frame.now name.now) }
{
    if is_accessed(name) {
        push_one_line(text, frame.access.bytes())?;
    }
    text.extend_from_slice(name)
}

/// Writes a variable.
fn push_variable(text: &mut Vec<u8>, frame: &Frame, name: &[u8]) -> Result<(), AllocError>
    ensures { OnOk result (text.new.items ≡ text.old.items ++ names.variable frame.now name.now) }
{
    match variable_text(frame.variables.as_slice(), name) {
        Some(source) => push_one_line(text, source),
        None => push_accessed(text, frame, name),
    }
}

/// Writes a name in which N stands for the machine's name.
fn push_of_machine(text: &mut Vec<u8>, machine: &[u8], word: &[u8]) -> Result<(), AllocError>
    ensures { OnOk result (text.new.items ≡ text.old.items ++ names.of_machine machine.now word.now) }
{
    if word.starts_with(b"N_") {
        text.extend_from_slice(machine)?;
        text.extend_from_slice(&word[1..])
    } else if word.starts_with(b"_N_") {
        text.extend_from_slice(b"_")?;
        text.extend_from_slice(machine)?;
        text.extend_from_slice(&word[2..])
    } else {
        text.extend_from_slice(word)
    }
}

fn push_word(
    text: &mut Vec<u8>,
    machine: &[u8],
    frame: &Frame,
    word: &[u8],
) -> Result<(), AllocError>
    ensures { OnOk result (text.new.items ≡ text.old.items ++ names.word_text machine.now frame.now word.now) }
{
    if is_variable(word) {
        push_variable(text, frame, word)
    } else {
        push_of_machine(text, machine, word)
    }
}

/// Writes what stands for the first byte of a template: a word stands where it begins.
fn push_here(
    text: &mut Vec<u8>,
    machine: &[u8],
    frame: &Frame,
    fresh: bool,
    template: &[u8],
) -> Result<(), AllocError>
    ensures { OnOk result (text.new.items ≡ text.old.items ++ names.filled_here machine.now frame.now fresh template.now) }
{
    let Some((first, _)) = template.split_first() else {
        return Ok(());
    };
    if !in_word(*first) {
        text.extend_from_slice(&[*first])
    } else if fresh {
        push_word(text, machine, frame, cut_word(template).0)
    } else {
        Ok(())
    }
}

/// Writes a text of a template, with its variables and the machine's name.
#[tactic(auto, unfolding(crate::specs::Names::filled_from))]
pub(crate) fn push_filled(
    text: &mut Vec<u8>,
    machine: &[u8],
    frame: &Frame,
    template: &[u8],
) -> Result<(), AllocError>
    ensures { OnOk result (text.new.items ≡ text.old.items ++ names.filled machine.now frame.now template.now) }
{
    let mut fresh = true;
    for at in 0..template.len() {
        push_here(text, machine, frame, fresh, &template[at..])?;
        fresh = !in_word(template[at]);
    }
    Ok(())
}
