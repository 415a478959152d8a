// The first fault of names and of the codes of actions, in text order.
ghost use Rattle.std.specs.Prelude.{◌≡◌, ◌+◌, ℕ, List, None, Some, map, MatchResult, OnOk};
ghost use Rattle.rl_grammar.specs.declared.syntax.Statement.TheVariants as statement;
ghost use Rattle.rl_names.specs.Answers.{Told, Tells, Shows};
ghost use Rattle.rl_names.specs.Events.{seen as shown};
ghost use Rattle.rl_names.specs.Names as names;
ghost use Rattle.rl_names.specs.TableForms.{count_in};
ghost use Rattle.rl_names.specs.Tables.{seen, Notes};

use crate::brought::{brings_statements, brought, brought_ending, is_usable, steers};
use crate::codes::code;
use crate::events::{Event, events_of};
use crate::memory::{NameFault, fault_at};
use crate::tables::{Tables, add_text, count_of, define, said_of, set_count};
use crate::texts::has;
use indexmap::{IndexMap, IndexSet};
use rl_grammar::syntax::{Action, ActionUse, Definition, Statement, Word, Write, WriteKind};
use rl_grammar::{ReadFault, Step};
use rl_leaves::is_built_in;
use rl_types::{FaultKind, Limit, LimitKind, MOST_NAMES, Place};
use std::alloc::Global;

/// How many names there are with one more, behind others.
fn counted(count: u32, place: Place) -> Result<u32, ReadFault>
    ensures { MatchResult result (λ n. (names.counted count place ≡ None) × (n ≡ count + 1)) (λ e. names.counted count place ≡ Some e) }
{
    if count < MOST_NAMES {
        Ok(count + 1)
    } else {
        Err(ReadFault::Limit(Limit {
            kind: LimitKind::L9,
            place,
        }))
    }
}

/// An expression that is used is defined earlier.
fn expression(tables: &Tables<'_>, machine: &[u8], word: &Word) -> Result<(), ReadFault>
    ensures { Shows (names.expression_fault (seen tables.now) machine.now word.now) result }
{
    let name = word.text.as_slice();
    if is_built_in(name) || is_usable(said_of(&tables.defined, machine, name)) {
        Ok(())
    } else {
        Err(fault_at(FaultKind::F5, word.place))
    }
}

/// An action that is used is defined earlier.
fn embedded(tables: &Tables<'_>, machine: &[u8], word: &Word) -> Result<(), ReadFault>
    ensures { Shows (names.embedded_fault (seen tables.now) machine.now word.now) result }
{
    match said_of(&tables.actions, machine, word.text.as_slice()) {
        Some(_) => Ok(()),
        None => Err(fault_at(FaultKind::F5, word.place)),
    }
}

/// An action that may have no control statements.
fn quiet(
    alloc: Global,
    tables: &Tables<'_>,
    machine: &[u8],
    place: Place,
    action: &ActionUse,
) -> Result<(), ReadFault>
    ensures { Tells (names.quiet_fault (seen tables.now) machine.now place action.now) result }
{
    if steers(alloc, tables, machine, action)? {
        Err(fault_at(FaultKind::F13, place))
    } else {
        Ok(())
    }
}

/// A name in a pattern that begins at this place.
fn taken(tables: &Tables<'_>, machine: &[u8], place: Place, word: &Word) -> Result<(), ReadFault>
    ensures { Shows (names.taken_fault place (names.said_of (machine.now, word.now.text) (seen tables.now).defined)) result }
{
    let brought = said_of(&tables.defined, machine, word.text.as_slice());
    if let Some(ending) = brought_ending(brought) {
        return Err(fault_at(FaultKind::F14, ending.place));
    }
    if brings_statements(brought) {
        Err(fault_at(FaultKind::F13, place))
    } else {
        Ok(())
    }
}

/// How many names there are with an action without a name.
fn anonymous(alloc: Global, count: u32, word: &Word) -> Result<u32, ReadFault>
    ensures { MatchResult result (λ n. (names.anonymous_fault count word.now ≡ None) × (n ≡ count + 1)) (Told (names.anonymous_fault count word.now)) }
{
    let count = counted(count, word.place)?;
    code(alloc, word)?;
    Ok(count)
}

/// How many names there are behind one of the things that an expression uses.
fn used(
    alloc: Global,
    tables: &Tables<'_>,
    machine: &[u8],
    count: u32,
    event: &Event<'_>,
) -> Result<u32, ReadFault>
    ensures { MatchResult result (λ n. (names.use_fault (seen tables.now) machine.now count (shown event.now) ≡ None) × (n ≡ count + names.is_code (shown event.now)))
        (Told (names.use_fault (seen tables.now) machine.now count (shown event.now))) }
{
    match event {
        Event::Name(word) => {
            expression(tables, machine, word)?;
            Ok(count)
        }
        Event::Action(word) => {
            embedded(tables, machine, word)?;
            Ok(count)
        }
        Event::Code(word) => anonymous(alloc, count, word),
        Event::Quiet(place, action) => {
            quiet(alloc, tables, machine, *place, action)?;
            Ok(count)
        }
        Event::Barred(place) => Err(fault_at(FaultKind::F14, *place)),
        Event::Taken(place, word) => {
            taken(tables, machine, *place, word)?;
            Ok(count)
        }
        Event::Leaf(_) | Event::Priority(_) | Event::Embeds(_) | Event::Ends(_) => Ok(count),
    }
}

/// How many names there are behind all that an expression uses.
fn all_used(
    alloc: Global,
    tables: &Tables<'_>,
    machine: &[u8],
    count: u32,
    events: &[Event<'_>],
) -> Result<u32, ReadFault>
    ensures { MatchResult result (λ n. (names.uses_fault (seen tables.now) machine.now count (map shown events.now) ≡ None) × (n ≡ count + names.codes_in (map shown events.now)))
        (Told (names.uses_fault (seen tables.now) machine.now count (map shown events.now))) }
{
    let mut behind = count;
    for event in events {
        behind = used(alloc, tables, machine, behind, event)?;
    }
    Ok(behind)
}

/// A name of an expression is new, and not built in.
fn fresh(tables: &Tables<'_>, machine: &[u8], word: &Word) -> Result<(), ReadFault>
    ensures due { Shows (names.name_fault (seen tables.now) machine.now word.now) result }
    ensures absent { OnOk result (names.said_of (machine.now, word.now.text) (seen tables.now).defined ≡ None) }
{
    let name = word.text.as_slice();
    if is_built_in(name) {
        return Err(fault_at(FaultKind::F6, word.place));
    }
    match said_of(&tables.defined, machine, name) {
        Some(_) => Err(fault_at(FaultKind::F6, word.place)),
        None => Ok(()),
    }
}

fn definition<'a>(
    alloc: Global,
    tables: &mut Tables<'a>,
    machine: &'a [u8],
    definition: &'a Definition,
) -> Result<(), ReadFault>
    ensures { Notes (names.definition_fault (seen tables.old) machine.now (count_in machine.now tables.old.counts) definition.now) machine.now (statement.Definition definition.now) tables.old tables.new result }
{
    fresh(tables, machine, &definition.name)?;
    let count = counted(count_of(&tables.counts, machine), definition.name.place)?;
    let events = events_of(alloc, &definition.value)?;
    let count = all_used(alloc, tables, machine, count, events.as_slice())?;
    let brought = brought(alloc, tables, machine, definition, events.as_slice())?;
    define(
        &mut tables.defined,
        machine,
        definition.name.text.as_slice(),
        brought,
    )?;
    set_count(&mut tables.counts, machine, count)
}

/// A name of an action is new.
fn unused(tables: &Tables<'_>, machine: &[u8], name: &Word) -> Result<(), ReadFault>
    ensures due { Shows (names.action_name_fault (seen tables.now) machine.now name.now) result }
    ensures absent { OnOk result (names.said_of (machine.now, name.now.text) (seen tables.now).actions ≡ None) }
{
    match said_of(&tables.actions, machine, name.text.as_slice()) {
        Some(_) => Err(fault_at(FaultKind::F6, name.place)),
        None => Ok(()),
    }
}

fn action<'a>(
    alloc: Global,
    tables: &mut Tables<'a>,
    machine: &'a [u8],
    action: &'a Action,
) -> Result<(), ReadFault>
    ensures { Notes (names.action_fault (seen tables.old) machine.now (count_in machine.now tables.old.counts) action.now) machine.now (statement.Action action.now) tables.old tables.new result }
{
    unused(tables, machine, &action.name)?;
    let count = counted(count_of(&tables.counts, machine), action.name.place)?;
    let steers = code(alloc, &action.code)?;
    define(
        &mut tables.actions,
        machine,
        action.name.text.as_slice(),
        steers,
    )?;
    set_count(&mut tables.counts, machine, count)
}

fn data<'a>(tables: &mut Tables<'a>, machine: &'a [u8], write: &'a Write) -> Result<(), ReadFault>
    ensures { Notes (names.data_fault (seen tables.old) machine.now write.now.start write.now.what) machine.now (statement.Write write.now) tables.old tables.new result }
{
    match write.what {
        WriteKind::Init(_) | WriteKind::Exec(_) => Ok(()),
        WriteKind::Data(_) => {
            if has(&tables.written, machine) {
                return Err(fault_at(FaultKind::F6, write.start));
            }
            add_text(&mut tables.written, machine)
        }
    }
}

fn statement<'a>(
    alloc: Global,
    tables: &mut Tables<'a>,
    machine: &'a [u8],
    statement: &'a Statement,
) -> Result<(), ReadFault>
    ensures { Notes (names.statement_fault (seen tables.old) machine.now (count_in machine.now tables.old.counts) statement.now) machine.now statement.now tables.old tables.new result }
{
    match statement {
        Statement::Definition(one) => definition(alloc, tables, machine, one),
        Statement::Action(one) => action(alloc, tables, machine, one),
        Statement::Write(one) => data(tables, machine, one),
        Statement::Machine(_)
        | Statement::Include(_)
        | Statement::Alphtype(_)
        | Statement::Access(_)
        | Statement::Variable(_) => Ok(()),
    }
}

fn check<'a>(alloc: Global, tables: &mut Tables<'a>, step: &'a Step) -> Result<(), ReadFault>
    ensures { Notes (names.statement_fault (seen tables.old) step.now.machine (count_in step.now.machine tables.old.counts) step.now.statement) step.now.machine step.now.statement tables.old tables.new result }
{
    statement(alloc, tables, step.machine.bytes(), &step.statement)
}

fn no_tables<'a>(alloc: Global) -> Tables<'a>
    ensures known { seen result ≡ names.nothing }
    ensures counts { (x : List ℕ) → count_in x result.counts ≡ 0 }
{
    let defined = IndexMap::new(alloc);
    let actions = IndexMap::new(alloc);
    let written = IndexSet::new(alloc);
    let counts = IndexMap::new(alloc);
    Tables {
        defined,
        actions,
        written,
        counts,
    }
}

/// Whether the names of a source and the codes of its actions are good; the error is the first fault of them in text order.
///
/// F5 stands at the name of an expression (2.1.2) or of an action (chapter 3) that is used and not defined earlier for its
/// machine, or that names a scanner; F6 at a name that is defined twice for one machine or is built in, and at a machine's
/// second `write data` (this profile); L9 at the first name of a machine behind 65,535 others, an action without a name
/// counted at its `{` (this profile). Of one definition F6 at its name comes first, then L9 at its name, then what its
/// expression uses, or what the code of its action says.
///
/// F13 stands at a word of code that is left out or has not its form (3.4, 6.1 to 6.3); at the sign of a to-state or
/// from-state embedding (3.6) or the `when` (6.5) whose action has control statements; and at the first token of a pattern
/// of a scanner (6.3) that embeds an action with control statements, or asks one as a condition, itself or by the names that
/// it uses (this profile; the pattern's own action behind `=>` may have them). F14 stands at an end-of-file or error
/// embedding (3.6) that a pattern has, itself or by the names that it uses (this profile). L10 stands at the fifth statement
/// of a code at the outer level that no transfer or `fbreak` stands before (this profile). Memory may be wanted at any time.
///
/// A fault F13 or F14 that a pattern meets by a name comes where this name stands in the pattern. Of several that one name
/// brings the first in text order comes, which is an F14: what a name stands for is before the pattern. At a pattern's first
/// token its own F13 comes before what that token brings, and behind F5 of that token.
pub fn check_names(alloc: Global, steps: &[Step]) -> Result<(), NameFault>
    ensures { Tells (names.names_fault steps.now) result }
{
    let mut tables = no_tables(alloc);
    for step in steps {
        check(alloc, &mut tables, step)?;
    }
    Ok(())
}
