// What is printed for a source.
ghost use Rattle.std.specs.Prelude.{◌≡◌, ◌≤◌, Ok, IfOk, IfErr, All, length, map};
ghost use Rattle.rl_types.specs.Limits.{most_source_bytes};
ghost use Rattle.rl_io.specs.Outside.{Held};
ghost use Rattle.rl_lexical.specs.Parts.{file_parts};
ghost use Rattle.rl_model.specs.RefusedNode.{IsBuildable};
ghost use Rattle.rl_printed.specs.Printed.{printed as printed_of, marking as marking_of};
ghost use Rattle.rl_printed.specs.Reading.{HaveOwnNames};
ghost use Rattle.rl_resolve.specs.Answers.{IsFormed};
ghost use Rattle.rl_compile.specs.Sections.{Because};
ghost use Rattle.rl_compile.specs.Printing.{AreTables, FirstUnbuilt, IsPrinted, IsPrintedOf, RefusesSource};
ghost use Rattle.rl_compile.specs.Printing.{is_built as is_built_of};
ghost use Rattle.rl_compile.specs.Reads.{HasTablesAlone, IsUnbuiltAlone, PrintsParts, PrintsWhole};

use crate::fault::CompileFault;
use crate::nodes::tables_for;
use crate::source::read_source;
use rl_io::Store;
use rl_lex::{Part, ReadFault, split};
use rl_model::Spec;
use rl_printed::{check_sections, printed_text};
use rl_resolve::Runs;
use rl_tables::Tables;
use rl_types::{List, Memory};
use std::alloc::Global;

/// Whether tables are built for a machine: it has a `write` statement.
fn is_built(spec: &Spec) -> bool
    ensures { result ≡ is_built_of spec.now }
{
    !spec.writes.as_slice().is_empty()
}

/// The tables of a machine, where they are built. A machine with a `write` statement has an entry; want of memory is told
/// where it has none.
fn tables_where(alloc: Global, spec: &Spec) -> Result<Option<Tables>, CompileFault>
    requires { IsFormed spec.now }
    ensures made { IfOk result (HasTablesAlone spec.now) }
    ensures refused { IfErr result (Because (IsUnbuiltAlone spec.now)) }
{
    if !is_built(spec) {
        return Ok(None);
    }
    if spec.entries.as_slice().is_empty() {
        return Err(CompileFault::Memory);
    }
    match tables_for(alloc, spec) {
        Ok(tables) => Ok(Some(tables)),
        Err(fault) => Err(fault),
    }
}

/// The tables of machines.
fn all_tables(alloc: Global, specs: &[Spec]) -> Result<Vec<Option<Tables>>, CompileFault>
    requires { All IsFormed specs.now }
    ensures made { IfOk result (λ v. AreTables specs.now v.items) }
    ensures refused { IfErr result (Because (FirstUnbuilt specs.now)) }
{
    let mut found = Vec::new(alloc);
    let mut rest = specs;
    while let Some((spec, behind)) = rest.split_first() {
        let tables = match tables_where(alloc, spec) {
            Ok(tables) => tables,
            Err(fault) => return Err(fault),
        };
        if found.push(tables).is_err() {
            return Err(CompileFault::Memory);
        }
        rest = behind;
    }
    Ok(found)
}

/// A Spec whose frame says whether `#line` is printed.
fn marking(marked: bool, spec: Spec) -> Spec
    ensures { result ≡ marking_of marked spec }
{
    let mut spec = spec;
    spec.frame.marked = marked;
    spec
}

/// The same of all Specs.
fn all_marking(alloc: Global, marked: bool, specs: List<Spec>) -> Result<Vec<Spec>, Memory>
    ensures { IfOk result (λ v. v.items ≡ map (marking_of marked) specs) }
{
    let mut rest = specs;
    let mut found = Vec::new(alloc);
    while let Some(spec) = rest.pop() {
        if found.push(marking(marked, spec)).is_err() {
            return Err(Memory);
        }
    }
    found.as_mut_slice().reverse();
    Ok(found)
}

/// The parts of a text that was read already.
fn parts_of(alloc: Global, text: &[u8]) -> Result<List<Part>, Memory>
    requires { length text.now ≤ most_source_bytes }
    ensures { IfOk result (λ parts. file_parts 0 text.now ≡ Ok parts) }
{
    match split(alloc, text, 0) {
        Ok(parts) => Ok(parts),
        Err(ReadFault::Fault(_)) => Err(Memory),
        Err(ReadFault::Limit(_)) => Err(Memory),
        Err(ReadFault::Memory) => Err(Memory),
    }
}

/// What is printed for these parts. Want of memory is told, too, where a line of it that is in no section begins as a
/// section does; no line of a source does.
fn printed_whole(
    alloc: Global,
    parts: &[Part],
    specs: &[Spec],
    tables: &[Option<Tables>],
) -> Result<Vec<u8>, Memory>
    ensures { IfOk result (λ v. PrintsWhole parts.now specs.now tables.now v.items) }
{
    check_sections(alloc, parts, specs, tables)?;
    let printed = printed_text(alloc, parts, specs, tables)?;
    Ok(printed)
}

/// What is printed for a text with these Specs and tables.
fn printed_with(
    alloc: Global,
    text: &[u8],
    specs: List<Spec>,
    tables: &[Option<Tables>],
    marked: bool,
) -> Result<Vec<u8>, Memory>
    requires { length text.now ≤ most_source_bytes }
    ensures { IfOk result (λ v. PrintsParts marked text.now specs tables.now v.items) }
{
    let parts = parts_of(alloc, text)?;
    let shown = all_marking(alloc, marked, specs)?;
    let printed = printed_whole(alloc, parts.as_slice(), &shown, tables)?;
    Ok(printed)
}

/// What is printed for a text with these Specs.
fn printed_for(
    alloc: Global,
    text: &[u8],
    specs: List<Spec>,
    marked: bool,
) -> Result<Vec<u8>, CompileFault>
    requires short { length text.now ≤ most_source_bytes }
    requires formed { All IsFormed specs }
    requires named { HaveOwnNames specs }
    ensures printed { IfOk result (λ v. IsPrintedOf marked text.now specs v.items) }
    ensures refused { IfErr result (Because (FirstUnbuilt specs)) }
{
    let tables = match all_tables(alloc, specs.as_slice()) {
        Ok(tables) => tables,
        Err(fault) => return Err(fault),
    };
    match printed_with(alloc, text, specs, &tables, marked) {
        Ok(printed) => Ok(printed),
        Err(_) => Err(CompileFault::Memory),
    }
}

/// What is printed for the source in a file.
pub fn printed_source<S: Store>(
    alloc: Global,
    name: &str,
    marked: bool,
    store: &mut S,
) -> Result<Vec<u8>, CompileFault>
    ensures printed { IfOk result (λ v. IsPrinted (S.held store.old) name.now marked v.items) }
    ensures quiet { IfOk result (λ _. S.faults store.new ≡ S.faults store.old) }
    ensures refused { IfErr result
        (Because (RefusesSource (S.held store.old) name.now (S.faults store.old) (S.faults store.new))) }
    ensures same { S.held store.new ≡ S.held store.old }
{
    let (text, specs) = match read_source(alloc, name, Runs::Nobody, store) {
        Ok(read) => read,
        Err(fault) => return Err(fault),
    };
    match printed_for(alloc, text.as_slice(), specs, marked) {
        Ok(printed) => Ok(printed),
        Err(fault) => Err(fault),
    }
}
