//! The lines of a section that have no array: the first ones, those of the entries, and the last one.
ghost use Rattle.std.specs.Prelude.{◌≡◌, ◌++◌, map, drop, codes, OnOk};
ghost use Rattle.std.specs.List.{flat_map, zip};
ghost use Rattle.std.specs.Fmt.{signed_decimal};
ghost use Rattle.rl_arrays.specs.Sizes.{shares};
ghost use Rattle.rl_arrays.specs.Section as section;

use crate::elements::push_number;
use rl_arrays::Arrays;
use rl_types::Name;
use std::alloc::AllocError;

/// Whether keys share cells: the arrays are of version 2.
pub(crate) fn are_shared(a: &Arrays) -> bool
    ensures { result ≡ shares a.now }
{
    a.version == 2
}

/// The version, as it is printed.
fn version_word(a: &Arrays) -> &'static [u8]
    ensures { result.now ≡ section.version_word a.now }
{
    if are_shared(a) { b"2" } else { b"1" }
}

/// Writes the first line.
fn push_first_line(text: &mut Vec<u8>, version: &[u8], name: &[u8]) -> Result<(), AllocError>
    ensures { OnOk result (text.new.items ≡ text.old.items ++ section.line_text (section.first_line version.now name.now)) }
{
    text.extend_from_slice(b"/* rl-data ")?;
    text.extend_from_slice(version)?;
    text.extend_from_slice(b" ")?;
    text.extend_from_slice(name)?;
    text.extend_from_slice(b" */\n")
}

/// Writes the last line.
pub(crate) fn push_last_line(text: &mut Vec<u8>, name: &[u8]) -> Result<(), AllocError>
    ensures { OnOk result (text.new.items ≡ text.old.items ++ section.line_text (section.last_line name.now)) }
{
    text.extend_from_slice(b"/* rl-end ")?;
    text.extend_from_slice(name)?;
    text.extend_from_slice(b" */\n")
}

/// Writes what stands in the line of a number before it.
fn push_number_front(text: &mut Vec<u8>, name: &[u8], label: &[u8]) -> Result<(), AllocError>
    ensures { OnOk result (text.new.items ≡ text.old.items ++ section.number_front name.now label.now) }
{
    text.extend_from_slice(b"static const int ")?;
    text.extend_from_slice(name)?;
    text.extend_from_slice(b"_")?;
    text.extend_from_slice(label)?;
    text.extend_from_slice(b" = ")
}

/// Writes what stands in the line of an entry before the number of its state.
fn push_entry_front(text: &mut Vec<u8>, name: &[u8], entry: &[u8]) -> Result<(), AllocError>
    ensures { OnOk result (text.new.items ≡ text.old.items ++ section.number_front name.now (codes "en_" ++ entry.now)) }
{
    text.extend_from_slice(b"static const int ")?;
    text.extend_from_slice(name)?;
    text.extend_from_slice(b"_en_")?;
    text.extend_from_slice(entry)?;
    text.extend_from_slice(b" = ")
}

/// Writes a number, and the end of its line.
fn push_number_back(text: &mut Vec<u8>, number: i64) -> Result<(), AllocError>
    ensures { OnOk result (text.new.items ≡ text.old.items ++ (signed_decimal number ++ codes ";\n")) }
{
    push_number(text, number)?;
    text.extend_from_slice(b";\n")
}

/// Writes the line of a number.
fn push_number_line(
    text: &mut Vec<u8>,
    name: &[u8],
    label: &[u8],
    number: i64,
) -> Result<(), AllocError>
    ensures { OnOk result (text.new.items ≡ text.old.items ++ section.line_text (section.number_line name.now label.now number)) }
{
    push_number_front(text, name, label)?;
    push_number_back(text, number)?;
    Ok(())
}

/// Writes the line of an entry.
fn push_entry_line(
    text: &mut Vec<u8>,
    name: &[u8],
    entry: &[u8],
    state: i64,
) -> Result<(), AllocError>
    ensures { OnOk result (text.new.items ≡ text.old.items ++ section.line_text (section.entry_line name.now (entry.now, state))) }
{
    push_entry_front(text, name, entry)?;
    push_number_back(text, state)?;
    Ok(())
}

/// Writes the lines before those of the entries.
pub(crate) fn push_head(text: &mut Vec<u8>, a: &Arrays) -> Result<(), AllocError>
    ensures { OnOk result (text.new.items ≡ text.old.items ++ flat_map section.line_text (section.head_lines a.now)) }
{
    let name = a.name.bytes();
    push_first_line(text, version_word(a), name)?;
    push_number_line(text, name, b"start", a.start)?;
    push_number_line(text, name, b"first_final", a.first_final)?;
    push_number_line(text, name, b"error", 0)?;
    push_number_line(text, name, b"alphabet", a.alphabet)?;
    Ok(())
}

/// The elements behind the first one.
fn behind_first<T>(items: &[T]) -> &[T]
    ensures { result.now ≡ drop 1 items.now }
{
    match items {
        [] => items,
        [_, rest @ ..] => rest,
    }
}

/// Writes a line for each entry, as long as there are names and states.
fn push_entry_lines(
    text: &mut Vec<u8>,
    name: &[u8],
    entries: &[Name],
    states: &[i64],
) -> Result<(), AllocError>
    ensures { OnOk result (text.new.items ≡ text.old.items ++ flat_map section.line_text (map (section.entry_line name.now) (zip entries.now states.now))) }
{
    let mut names = entries;
    let mut numbers = states;
    while let Some((entry, more_names)) = names.split_first() {
        match numbers.split_first() {
            None => return Ok(()),
            Some((state, more_numbers)) => {
                push_entry_line(text, name, entry.bytes(), *state)?;
                names = more_names;
                numbers = more_numbers;
            }
        }
    }
    Ok(())
}

/// Writes the lines of the entries.
pub(crate) fn push_entries(text: &mut Vec<u8>, a: &Arrays) -> Result<(), AllocError>
    ensures { OnOk result (text.new.items ≡ text.old.items ++ flat_map section.line_text (map (section.entry_line a.now.name) (section.entries a.now))) }
{
    push_entry_lines(
        text,
        a.name.bytes(),
        behind_first(a.entry_names.as_slice()),
        behind_first(a.entry_states.as_slice()),
    )
}
