// What the name of an expression brings to where it is used: what the expression embeds, its names followed.
ghost use Rattle.std.specs.Prelude.{◌≡◌, None, map, unwrap_or, false, MatchResult};
ghost use Rattle.std.specs.List.{list_any};
ghost use Rattle.rl_grammar.specs.declared.read_fault.ReadFault.TheVariants as reason;
ghost use Rattle.rl_names.specs.Events.{seen as shown};
ghost use Rattle.rl_names.specs.Names as names;
ghost use Rattle.rl_names.specs.Tables.{seen};

use crate::codes::has_statements;
use crate::events::Event;
use crate::tables::{Brought, Ending, Tables, length_of, said_of};
use crate::values::scanner_of;
use rl_grammar::ReadFault;
use rl_grammar::syntax::{ActionUse, Definition};
use std::alloc::Global;

pub fn is_usable(brought: Option<Brought>) -> bool
    ensures { result ≡ names.is_usable brought }
{
    match brought {
        Some(one) => one.usable,
        None => false,
    }
}

pub fn brings_statements(brought: Option<Brought>) -> bool
    ensures { result ≡ names.brings_statements brought }
{
    match brought {
        Some(one) => one.steers,
        None => false,
    }
}

pub fn brought_ending(brought: Option<Brought>) -> Option<Ending>
    ensures { result ≡ names.brought_ending brought }
{
    match brought {
        Some(one) => one.ending,
        None => None,
    }
}

// ---- actions with control statements

/// Whether an action that is defined earlier has control statements.
fn named_steers(tables: &Tables<'_>, machine: &[u8], name: &[u8]) -> bool
    ensures { result ≡ unwrap_or (names.said_of (machine.now, name.now) (seen tables.now).actions) false }
{
    match said_of(&tables.actions, machine, name) {
        Some(steers) => steers,
        None => false,
    }
}

/// Whether an action that is used has control statements.
pub fn steers(
    alloc: Global,
    tables: &Tables<'_>,
    machine: &[u8],
    action: &ActionUse,
) -> Result<bool, ReadFault>
    ensures { MatchResult result (λ b. b ≡ names.steers (seen tables.now) machine.now action.now) (λ e. e ≡ reason.Memory) }
{
    match action {
        ActionUse::Name(word) | ActionUse::Group(_, word, _) => {
            Ok(named_steers(tables, machine, word.text.as_slice()))
        }
        ActionUse::Code(word) => has_statements(alloc, word.text.as_slice()),
    }
}

/// Whether an action with control statements is embedded, or comes by a name.
fn embeds_statements(
    alloc: Global,
    tables: &Tables<'_>,
    machine: &[u8],
    event: &Event<'_>,
) -> Result<bool, ReadFault>
    ensures { MatchResult result (λ b. b ≡ names.embeds_statements (seen tables.now) machine.now (shown event.now)) (λ e. e ≡ reason.Memory) }
{
    match event {
        Event::Embeds(action) => steers(alloc, tables, machine, action),
        Event::Name(word) => Ok(brings_statements(said_of(
            &tables.defined,
            machine,
            word.text.as_slice(),
        ))),
        Event::Leaf(_)
        | Event::Action(_)
        | Event::Code(_)
        | Event::Priority(_)
        | Event::Quiet(_, _)
        | Event::Ends(_)
        | Event::Barred(_)
        | Event::Taken(_, _) => Ok(false),
    }
}

fn any_statements(
    alloc: Global,
    tables: &Tables<'_>,
    machine: &[u8],
    events: &[Event<'_>],
) -> Result<bool, ReadFault>
    ensures { MatchResult result (λ b. b ≡ list_any (names.embeds_statements (seen tables.now) machine.now) (map shown events.now)) (λ e. e ≡ reason.Memory) }
{
    for event in events {
        let embeds = embeds_statements(alloc, tables, machine, event)?;
        if embeds {
            return Ok(true);
        }
    }
    Ok(false)
}

// ---- end-of-file and error embeddings

fn earlier(a: Option<Ending>, b: Option<Ending>) -> Option<Ending>
    ensures { result ≡ names.earlier a b }
{
    match (a, b) {
        (None, None) => None,
        (None, Some(second)) => Some(second),
        (Some(first), None) => Some(first),
        (Some(first), Some(second)) => {
            if second.number < first.number {
                Some(second)
            } else {
                Some(first)
            }
        }
    }
}

fn ending_of(tables: &Tables<'_>, machine: &[u8], event: &Event<'_>) -> Option<Ending>
    ensures { result ≡ names.ending_of (seen tables.now) machine.now (shown event.now) }
{
    match event {
        Event::Ends(place) => Some(Ending {
            number: length_of(&tables.defined),
            place: *place,
        }),
        Event::Name(word) => {
            brought_ending(said_of(&tables.defined, machine, word.text.as_slice()))
        }
        Event::Leaf(_)
        | Event::Action(_)
        | Event::Code(_)
        | Event::Priority(_)
        | Event::Quiet(_, _)
        | Event::Embeds(_)
        | Event::Barred(_)
        | Event::Taken(_, _) => None,
    }
}

fn first_ending(tables: &Tables<'_>, machine: &[u8], events: &[Event<'_>]) -> Option<Ending>
    ensures { result ≡ names.first_ending (seen tables.now) machine.now (map shown events.now) }
{
    let mut found = None;
    for event in events {
        found = earlier(found, ending_of(tables, machine, event));
    }
    found
}

/// What the name of a definition brings whose value uses these.
pub fn brought(
    alloc: Global,
    tables: &Tables<'_>,
    machine: &[u8],
    definition: &Definition,
    events: &[Event<'_>],
) -> Result<Brought, ReadFault>
    ensures { MatchResult result (λ b. b ≡ names.brought (seen tables.now) machine.now definition.now (map shown events.now)) (λ e. e ≡ reason.Memory) }
{
    let steers = any_statements(alloc, tables, machine, events)?;
    Ok(Brought {
        usable: scanner_of(&definition.value).is_none(),
        steers,
        ending: first_ending(tables, machine, events),
    })
}
