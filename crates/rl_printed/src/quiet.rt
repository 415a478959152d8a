// Looks whether only the sections of a printed file begin as a section does.
ghost use Rattle.std.specs.Prelude.{◌≡◌, ◌≤◌, [], ◌∷◌, true, IfOk};
ghost use Rattle.rl_cdata.specs.Printed.{EndsLine};
ghost use Rattle.rl_printed.specs.Reading.{IsQuiet, AreHosts, IsSound, AreSound, IsSoundAt};
ghost use Rattle.rl_printed.specs.Reading.{blocks_in, are_within, AreWithin};

use rl_cdata::all_fit;
use rl_cexec::{exec_text, init_text};
use rl_cread::{TableFault, read_tables};
use rl_lexical::Part;
use rl_model::{Spec, Write};
use rl_tables::Tables;
use rl_types::Memory;
use std::alloc::Global;

/// No line of the text begins a section.
fn check_quiet(alloc: Global, text: &[u8]) -> Result<(), Memory>
    ensures { IfOk result (λ _. IsQuiet text.now) }
{
    match read_tables(alloc, text, None) {
        Err(TableFault::NoSection) => Ok(()),
        _ => Err(Memory),
    }
}

/// The text is empty, or ends with a newline.
fn check_ending(text: &[u8]) -> Result<(), Memory>
    ensures { IfOk result (λ _. EndsLine text.now) }
{
    match text {
        [] => Ok(()),
        [.., last] if *last == b'\n' => Ok(()),
        _ => Err(Memory),
    }
}

/// A host text is quiet, and is whole lines, unless it is the last part.
fn check_part(alloc: Global, part: &Part, behind: &[Part]) -> Result<(), Memory>
    ensures { IfOk result (λ _. AreHosts behind.now → AreHosts (part.now ∷ behind.now)) }
{
    match part {
        Part::Block(_) => Ok(()),
        Part::Host(_) if behind.is_empty() => Ok(()),
        Part::Host(host) => {
            check_quiet(alloc, host.as_slice())?;
            check_ending(host.as_slice())
        }
    }
}

/// The same of all parts.
fn check_parts(alloc: Global, parts: &[Part]) -> Result<(), Memory>
    ensures { IfOk result (λ _. AreHosts parts.now) }
{
    let mut rest = parts;
    while let Some((part, behind)) = rest.split_first() {
        check_part(alloc, part, behind)?;
        rest = behind;
    }
    Ok(())
}

/// The tables bear the machine's name.
fn check_name(name: &[u8], machine: &[u8]) -> Result<(), Memory>
    ensures { IfOk result (λ _. name.now ≡ machine.now) }
{
    if name == machine { Ok(()) } else { Err(Memory) }
}

/// The tables bear the machine's name, and the texts of a machine beside its section are quiet.
fn check_machine(alloc: Global, spec: &Spec, tables: &Tables) -> Result<(), Memory>
    ensures { IfOk result (λ _. IsSound spec.now tables.now) }
{
    all_fit(tables.arrays());
    check_name(tables.arrays().name.bytes(), spec.machine.bytes())?;
    let init = init_text(alloc, spec, tables, &spec.frame)?;
    check_quiet(alloc, &init)?;
    let exec = exec_text(alloc, spec, tables, &spec.frame)?;
    check_quiet(alloc, &exec)
}

/// The same of the machine with this number, if it has tables.
fn check_at(alloc: Global, spec: &Spec, tables: &[Option<Tables>], i: usize) -> Result<(), Memory>
    ensures { IfOk result (λ _. IsSoundAt spec.now tables.now i) }
{
    match tables.get(i) {
        Some(Some(tables)) => check_machine(alloc, spec, tables),
        _ => Ok(()),
    }
}

/// The same of all machines.
fn check_machines(alloc: Global, specs: &[Spec], tables: &[Option<Tables>]) -> Result<(), Memory>
    ensures { IfOk result (λ _. AreSound specs.now tables.now) }
{
    for i in 0..specs.len() {
        check_at(alloc, &specs[i], tables, i)?;
    }
    Ok(())
}

/// How many blocks a part is: one, or none.
fn blocks_of(part: &Part) -> usize
    ensures value { result ≡ blocks_in (part.now ∷ []) }
    ensures bound { result ≤ 1 }
{
    match part {
        Part::Host(_) => 0,
        Part::Block(_) => 1,
    }
}

/// How many blocks there are.
fn count_blocks(parts: &[Part]) -> usize
    ensures { result ≡ blocks_in parts.now }
{
    let mut count = 0;
    for part in parts {
        count += blocks_of(part);
    }
    count
}

/// Whether the statements of a machine stand in so many blocks.
fn are_within(blocks: usize, writes: &[Write]) -> bool
    ensures { result ≡ are_within blocks writes.now }
{
    writes.iter().all(|write| (write.block as usize) < blocks)
}

/// The statements of a machine stand in so many blocks.
fn check_writes(blocks: usize, writes: &[Write]) -> Result<(), Memory>
    ensures { IfOk result (λ _. are_within blocks writes.now ≡ true) }
{
    if are_within(blocks, writes) {
        Ok(())
    } else {
        Err(Memory)
    }
}

/// The statements of all machines stand in blocks of the file.
fn check_blocks(parts: &[Part], specs: &[Spec]) -> Result<(), Memory>
    ensures { IfOk result (λ _. AreWithin parts.now specs.now) }
{
    let blocks = count_blocks(parts);
    for i in 0..specs.len() {
        check_writes(blocks, specs[i].writes.as_slice())?;
    }
    Ok(())
}

/// Looks whether only the sections of a printed file begin as a section does: no line of a source file may begin
/// so, and no line of what is generated does. Also whether tables bear the names of their machines, and each
/// `write` stands in a block. All this follows from how parts, Specs and tables are made; it is looked at again,
/// and want of memory is told where it is not so.
pub fn check_sections(
    alloc: Global,
    parts: &[Part],
    specs: &[Spec],
    tables: &[Option<Tables>],
) -> Result<(), Memory>
    ensures hosts { IfOk result (λ _. AreHosts parts.now) }
    ensures machines { IfOk result (λ _. AreSound specs.now tables.now) }
    ensures within { IfOk result (λ _. AreWithin parts.now specs.now) }
{
    check_blocks(parts, specs)?;
    check_parts(alloc, parts)?;
    check_machines(alloc, specs, tables)
}
