//! Reading a section.
ghost use Rattle.std.specs.Prelude.{◌≡◌, ◌++◌, ℕ, List, IsTrue, ◌↔◌, IfOk, IfErr, IsSomeAnd, map, slice_get};
ghost use Rattle.rl_cread.specs.declared.said.Form.TheVariants.{Entry};
ghost use Rattle.rl_cread.specs.Lines.{tail, shape, IsEntryLine, EntriesEnd};
ghost use Rattle.rl_cread.specs.Reading.{ReadsAs, Stops};

use crate::entry::entry_in;
use crate::gathering::gathered;
use crate::lines::read_lines;
use crate::raw::Raw;
use crate::said::{BACK, FRONT, Form, HEAD, Stop};
use crate::texts::{line_at, lines_from};
use rl_arrays::ArrayName;
use rl_types::Name;
use std::alloc::{AllocError, Global};

/// Whether a line is that of an entry.
fn is_entry(alloc: Global, name: &[u8], line: &[u8]) -> Result<bool, AllocError>
    ensures { IfOk result (λ yes. IsTrue yes ↔ IsEntryLine name.now line.now) }
{
    let entry = entry_in(alloc, name, line)?;
    Ok(entry.is_some())
}

/// Whether the line at an index is there and is that of an entry.
fn is_entry_at(alloc: Global, name: &[u8], lines: &[&[u8]], i: usize) -> Result<bool, AllocError>
    ensures { IfOk result (λ yes. IsTrue yes ↔ IsSomeAnd (slice_get (map (λ line. line.now) lines.now) i) (IsEntryLine name.now)) }
{
    match line_at(lines, i) {
        Some(line) => is_entry(alloc, name, line),
        None => Ok(false),
    }
}

/// How many entry lines there are before the first line that is none.
fn entry_count(alloc: Global, name: &[u8], lines: &[&[u8]]) -> Result<usize, AllocError>
    ensures { IfOk result (EntriesEnd name.now (map (λ line. line.now) lines.now)) }
{
    for i in 0..lines.len() {
        if !is_entry_at(alloc, name, lines, i)? {
            return Ok(i);
        }
    }
    Ok(lines.len())
}

/// The forms of the lines behind the entries.
fn tail(alloc: Global, shared: bool) -> Result<Vec<Form>, AllocError>
    ensures { IfOk result (λ v. v.items ≡ tail shared) }
{
    let mut forms = Vec::from_slice(alloc, &FRONT)?;
    if shared {
        forms.push(Form::Numbers(ArrayName::CellUses))?;
    }
    forms.extend_from_slice(&BACK)?;
    Ok(forms)
}

/// The forms of the lines behind the first one, with so many entries.
fn forms(alloc: Global, shared: bool, entries: usize) -> Result<Vec<Form>, AllocError>
    ensures { IfOk result (λ v. v.items ≡ shape shared entries) }
{
    let mut forms = Vec::from_slice(alloc, &HEAD)?;
    for _i in 0..entries {
        forms.push(Form::Entry)?;
    }
    let tail = tail(alloc, shared)?;
    forms.extend_from_slice(&tail)?;
    Ok(forms)
}

/// The section of this name, from its lines behind the first one: one whose keys share cells, or one whose keys do not.
pub(crate) fn read_section(
    alloc: Global,
    shared: bool,
    name: &[u8],
    lines: &[&[u8]],
) -> Result<Raw, Stop>
    ensures found { IfOk result (ReadsAs shared name.now (map (λ line. line.now) lines.now)) }
    ensures bad { IfErr result (Stops shared name.now (map (λ line. line.now) lines.now)) }
{
    let entries = entry_count(alloc, name, lines_from(lines, 4))?;
    let forms = forms(alloc, shared, entries)?;
    let said = read_lines(alloc, name, &forms, lines)?;
    let name = Name::new(Vec::from_slice(alloc, name)?);
    Ok(gathered(alloc, shared, name, said)?)
}
