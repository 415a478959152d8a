// One statement of a file.
ghost use Rattle.std.specs.Prelude.{◌≡◌, Some, OnOk, IfOk};
ghost use Rattle.rl_types.specs.declared.faults.FaultKind.TheVariants.{F4};
ghost use Rattle.rl_includes.specs.Turns as turns;
ghost use Rattle.rl_includes.specs.Answers.{Turned};

use crate::literal::written_name;
use crate::lookup::{looked_up, same_text};
use crate::memory::{copied, name_of, push};
use crate::reader::{Extent, Located, Part, Reader, Request};
use crate::unrolled::{Stop, Unrolled};
use rl_grammar::Step;
use rl_grammar::syntax::{Include, Statement, Word};
use rl_types::{Fault, FaultKind, Memory, Name, Place};
use std::alloc::Global;

/// A fault of a file ends what is unrolled.
pub fn fault(
    alloc: Global,
    kind: FaultKind,
    place: Place,
    file: &Name,
    unrolled: &mut Unrolled,
) -> Result<(), Memory>
    ensures { OnOk result (unrolled.new ≡ turns.faulted kind place file.now unrolled.old) }
{
    let file = copied(alloc, file)?;
    unrolled.stop = Some(Stop::Fault(Fault { kind, place }, file));
    Ok(())
}

/// Where a statement begins.
fn start_of(statement: &Statement) -> Place
    ensures { result ≡ turns.start_of statement.now }
{
    match statement {
        Statement::Machine(statement) => statement.start,
        Statement::Include(statement) => statement.start,
        Statement::Alphtype(statement) => statement.start,
        Statement::Access(statement) => statement.start,
        Statement::Variable(statement) => statement.start,
        Statement::Write(statement) => statement.start,
        Statement::Action(statement) => statement.start,
        Statement::Definition(statement) => statement.name.place,
    }
}

/// A statement is the next step.
fn step(
    number: u64,
    part: Part,
    statement: Statement,
    unrolled: &mut Unrolled,
) -> Result<(), Memory>
    ensures { OnOk result (unrolled.new ≡ turns.stepped number part statement unrolled.old) }
{
    let Part {
        sought: _,
        machine,
        block,
    } = part;
    push(
        &mut unrolled.steps,
        Step {
            machine,
            file: number,
            block,
            statement,
        },
    )
}

/// Whether only a source has such a statement.
fn is_of_source(statement: &Statement) -> bool
    ensures { result ≡ turns.is_of_source statement.now }
{
    matches!(statement, Statement::Machine(_) | Statement::Write(_))
}

/// Whether a statement is a step.
fn is_step(extent: &Extent, statement: &Statement) -> bool
    ensures { result ≡ turns.is_step extent.now statement.now }
{
    match extent {
        Extent::Whole => true,
        Extent::Included(_) => !is_of_source(statement),
    }
}

/// A statement is the next step, or none.
fn keep(
    reader: &Reader,
    part: Part,
    statement: Statement,
    unrolled: &mut Unrolled,
) -> Result<(), Memory>
    ensures { OnOk result (unrolled.new ≡ turns.kept reader.now part statement unrolled.old) }
{
    if is_step(&reader.extent, &statement) {
        step(reader.number, part, statement, unrolled)
    } else {
        Ok(())
    }
}

/// The machine that an `include` reads.
fn name_or(name: Name, word: Option<Word>, alloc: Global) -> Result<Name, Memory>
    ensures { IfOk result (λ found. found ≡ turns.name_or name word) }
{
    match word {
        None => Ok(name),
        Some(word) => name_of(alloc, word.text.as_slice()),
    }
}

/// What an `include` asks for.
fn request(alloc: Global, reader: &Reader, part: Part, include: Include) -> Result<Request, Memory>
    ensures { IfOk result (λ request. request ≡ turns.request reader.now part include) }
{
    let Part {
        sought,
        machine,
        block,
    } = part;
    let written = written_name(alloc, include.file.text.as_slice())?;
    let file = looked_up(alloc, &reader.name, written.as_slice())?;
    let named = include.machine.is_some();
    let sought = name_or(sought, include.machine, alloc)?;
    Ok(Request {
        place: include.start,
        file,
        named,
        part: Part {
            sought,
            machine,
            block,
        },
    })
}

/// A statement that is read.
fn read_statement(
    alloc: Global,
    reader: &Reader,
    part: Part,
    statement: Statement,
    unrolled: &mut Unrolled,
) -> Result<Option<Request>, Memory>
    ensures { IfOk result (λ request. Turned (turns.read_statement reader.now part statement unrolled.old) unrolled.old unrolled.new request) }
{
    match statement {
        Statement::Include(include) => Ok(Some(request(alloc, reader, part, include)?)),
        statement => {
            keep(reader, part, statement, unrolled)?;
            Ok(None)
        }
    }
}

fn copied_part(alloc: Global, part: &Part) -> Result<Part, Memory>
    ensures { IfOk result (λ copy. copy ≡ part.now) }
{
    let sought = copied(alloc, &part.sought)?;
    let machine = copied(alloc, &part.machine)?;
    Ok(Part {
        sought,
        machine,
        block: part.block,
    })
}

/// What the statements of the source's machine of this name belong to.
fn own_part(alloc: Global, block: u64, name: &Name) -> Result<Part, Memory>
    ensures { IfOk result (λ part. part ≡ record { sought = name.now; machine = name.now; block = block }) }
{
    let sought = copied(alloc, name)?;
    let machine = copied(alloc, name)?;
    Ok(Part {
        sought,
        machine,
        block,
    })
}

/// What the statements of a machine belong to, where they are read.
fn part_of(alloc: Global, extent: &Extent, block: u64, name: &Name) -> Result<Option<Part>, Memory>
    ensures { IfOk result (λ part. part ≡ turns.part_of extent.now block name.now) }
{
    match extent {
        Extent::Whole => Ok(Some(own_part(alloc, block, name)?)),
        Extent::Included(part) => {
            if same_text(name.bytes(), part.sought.bytes()) {
                Ok(Some(copied_part(alloc, part)?))
            } else {
                Ok(None)
            }
        }
    }
}

/// The current machine behind a statement.
pub fn current_behind(
    alloc: Global,
    current: Option<Name>,
    statement: &Statement,
) -> Result<Option<Name>, Memory>
    ensures { IfOk result (λ behind. behind ≡ turns.current_behind current statement.now) }
{
    match statement {
        Statement::Machine(machine) => Ok(Some(name_of(alloc, machine.name.text.as_slice())?)),
        _ => Ok(current),
    }
}

/// A statement that is read where it belongs to something.
fn read_in(
    alloc: Global,
    reader: &Reader,
    part: Option<Part>,
    statement: Statement,
    unrolled: &mut Unrolled,
) -> Result<Option<Request>, Memory>
    ensures { IfOk result (λ request. Turned (turns.read_in reader.now part statement unrolled.old) unrolled.old unrolled.new request) }
{
    match part {
        None => Ok(None),
        Some(part) => read_statement(alloc, reader, part, statement, unrolled),
    }
}

/// A statement that stands before any `machine` of its file.
fn no_machine(
    alloc: Global,
    reader: &Reader,
    statement: &Statement,
    unrolled: &mut Unrolled,
) -> Result<Option<Request>, Memory>
    ensures { IfOk result (λ request. Turned (turns.Becomes (turns.faulted F4 (turns.start_of statement.now) reader.now.name unrolled.old)) unrolled.old unrolled.new request) }
{
    let place = start_of(statement);
    fault(alloc, FaultKind::F4, place, &reader.name, unrolled)?;
    Ok(None)
}

/// A statement of this machine.
fn in_machine(
    alloc: Global,
    reader: &Reader,
    name: &Name,
    item: Located,
    unrolled: &mut Unrolled,
) -> Result<Option<Request>, Memory>
    ensures { IfOk result (λ request. Turned (turns.turn_in reader.now (Some name.now) item unrolled.old) unrolled.old unrolled.new request) }
{
    let Located { block, statement } = item;
    let part = part_of(alloc, &reader.extent, block, name)?;
    read_in(alloc, reader, part, statement, unrolled)
}

/// What a statement comes to, where this is the current machine behind it.
pub fn turn(
    alloc: Global,
    reader: &Reader,
    current: &Option<Name>,
    item: Located,
    unrolled: &mut Unrolled,
) -> Result<Option<Request>, Memory>
    ensures { IfOk result (λ request. Turned (turns.turn_in reader.now current.now item unrolled.old) unrolled.old unrolled.new request) }
{
    match current {
        None => no_machine(alloc, reader, &item.statement, unrolled),
        Some(name) => in_machine(alloc, reader, name, item, unrolled),
    }
}
