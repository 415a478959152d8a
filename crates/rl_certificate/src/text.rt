// The lines of a certificate.
ghost use Rattle.std.specs.Prelude.{◌≡◌, ◌∷◌, ◌++◌, [], OnOk, IfOk, codes, decimal, flat_map, map};
ghost use Rattle.std.specs.Fmt.{signed_decimal};
ghost use Rattle.rl_certificate.specs.Texts.{spaced, letter_text, word_text, entry_name, access_line, apart_line, certificate_text};

use crate::certificate::{Access, Apart, Certificate};
use itoa::Buffer;
use rl_model::Entry;
use rl_types::{EntryId, Letter, Memory};
use std::alloc::{AllocError, Global};

// A word behind a blank.
fn push_word(text: &mut Vec<u8>, word: &[u8]) -> Result<(), AllocError>
    ensures { OnOk result (text.new.items ≡ text.old.items ++ (32 ∷ word.now)) }
{
    text.push(b' ')?;
    text.extend_from_slice(word)
}

fn push_number(text: &mut Vec<u8>, number: u32) -> Result<(), AllocError>
    ensures { OnOk result (text.new.items ≡ text.old.items ++ (32 ∷ decimal number)) }
{
    push_word(text, Buffer::new().format(number).as_bytes())
}

fn push_letter(text: &mut Vec<u8>, letter: &Letter) -> Result<(), AllocError>
    ensures { OnOk result (text.new.items ≡ text.old.items ++ (32 ∷ letter_text letter.now)) }
{
    push_word(text, Buffer::new().format(letter.key).as_bytes())?;
    text.push(b'/')?;
    text.extend_from_slice(Buffer::new().format(letter.truths).as_bytes())
}

// The letters of a word.
fn push_letters(text: &mut Vec<u8>, word: &[Letter]) -> Result<(), AllocError>
    ensures { OnOk result (text.new.items ≡ text.old.items ++ word_text word.now) }
{
    for letter in word {
        push_letter(text, letter)?;
    }
    Ok(())
}

// The name of the entry of this number, from 1; empty where there is none.
fn entry_name(entries: &[Entry], entry: EntryId) -> &[u8]
    ensures { result.now ≡ entry_name entries.now entry.0 }
{
    let Some(index) = entry.0.checked_sub(1) else {
        return &[];
    };
    match entries.get(index as usize) {
        Some(e) => e.name.bytes(),
        None => &[],
    }
}

fn push_access(text: &mut Vec<u8>, entries: &[Entry], access: &Access) -> Result<(), AllocError>
    ensures { OnOk result (text.new.items ≡ text.old.items ++ access_line entries.now access.now) }
{
    text.extend_from_slice(b"access")?;
    push_number(text, access.state)?;
    push_word(text, entry_name(entries, access.entry))?;
    push_letters(text, &access.word)?;
    text.push(b'\n')?;
    Ok(())
}

fn push_apart(text: &mut Vec<u8>, apart: &Apart) -> Result<(), AllocError>
    ensures { OnOk result (text.new.items ≡ text.old.items ++ apart_line apart.now) }
{
    text.extend_from_slice(b"apart")?;
    push_number(text, apart.low)?;
    push_number(text, apart.high)?;
    push_letters(text, &apart.word)?;
    text.push(b'\n')?;
    Ok(())
}

fn push_accesses(text: &mut Vec<u8>, entries: &[Entry], access: &[Access]) -> Result<(), AllocError>
    ensures { OnOk result (text.new.items ≡ text.old.items ++ flat_map (access_line entries.now) access.now) }
{
    for a in access {
        push_access(text, entries, a)?;
    }
    Ok(())
}

fn push_aparts(text: &mut Vec<u8>, apart: &[Apart]) -> Result<(), AllocError>
    ensures { OnOk result (text.new.items ≡ text.old.items ++ flat_map apart_line apart.now) }
{
    for p in apart {
        push_apart(text, p)?;
    }
    Ok(())
}

// The line of the machine's name.
fn machine_line(alloc: Global, machine: &[u8]) -> Result<Vec<u8>, AllocError>
    ensures { IfOk result (λ text. text.items ≡ codes "machine" ++ spaced (machine.now ∷ []) ++ 10 ∷ []) }
{
    let mut text = Vec::from_slice(alloc, b"machine")?;
    push_word(&mut text, machine)?;
    text.push(b'\n')?;
    Ok(text)
}

fn text_of(
    alloc: Global,
    machine: &[u8],
    entries: &[Entry],
    cert: &Certificate,
) -> Result<Vec<u8>, AllocError>
    ensures { IfOk result (λ text. text.items ≡ certificate_text machine.now entries.now cert.now) }
{
    let mut text = machine_line(alloc, machine)?;
    push_accesses(&mut text, entries, &cert.access)?;
    push_aparts(&mut text, &cert.apart)?;
    Ok(text)
}

/// The lines of a certificate (this profile): `machine NAME`; for each word to a state `access STATE ENTRY WORD`, with
/// the entry's name; and for each word of a pair `apart LOW HIGH WORD`. A word is its letters, each after a blank as
/// `KEY/TRUTHS`, where condition i counts 2 to the i - 1 in TRUTHS; the empty word prints nothing. `machine` is the
/// machine's name, and `entries` are its instantiations in text order. `Memory` is want of memory.
pub fn certificate_text(
    alloc: Global,
    machine: &[u8],
    entries: &[Entry],
    cert: &Certificate,
) -> Result<Vec<u8>, Memory>
    ensures { IfOk result (λ text. text.items ≡ certificate_text machine.now entries.now cert.now) }
{
    text_of(alloc, machine, entries, cert).map_err(|_| Memory)
}
