// The names of the priorities of one machine.
ghost use Rattle.std.specs.Prelude.{◌≡◌, fold, map, MatchResult};
ghost use Rattle.rl_grammar.specs.declared.read_fault.ReadFault.TheVariants as reason;
ghost use Rattle.rl_names.specs.Events.{seen as shown, value_events};
ghost use Rattle.rl_names.specs.Frames.{with_name};
ghost use Rattle.rl_names.specs.Priorities as priorities;
ghost use Rattle.rl_names.specs.TableForms.{texts, pointed};

use crate::events::{Event, events_of};
use crate::frames::is_of;
use crate::texts::{Texts, put};
use indexmap::IndexSet;
use rl_grammar::syntax::{Definition, Statement};
use rl_grammar::{ReadFault, Step};
use std::alloc::Global;

fn put_text<'a>(names: &mut Texts<'a>, text: &'a [u8]) -> Result<(), ReadFault>
    ensures { MatchResult result (λ _. texts names.new ≡ with_name (texts names.old) text.now) (λ e. e ≡ reason.Memory) }
{
    put(names, text)?;
    Ok(())
}

fn used<'a>(names: &mut Texts<'a>, event: Event<'a>) -> Result<(), ReadFault>
    ensures { MatchResult result (λ _. texts names.new ≡ priorities.priority_used (texts names.old) (shown event.entry)) (λ e. e ≡ reason.Memory) }
{
    match event {
        Event::Priority(word) => put_text(names, word.text.as_slice()),
        Event::Leaf(_)
        | Event::Name(_)
        | Event::Action(_)
        | Event::Code(_)
        | Event::Quiet(_, _)
        | Event::Embeds(_)
        | Event::Ends(_)
        | Event::Barred(_)
        | Event::Taken(_, _) => Ok(()),
    }
}

fn all_used<'a>(names: &mut Texts<'a>, events: &[Event<'a>]) -> Result<(), ReadFault>
    ensures { MatchResult result (λ _. texts names.new ≡ fold priorities.priority_used (texts names.old) (map shown events.now)) (λ e. e ≡ reason.Memory) }
{
    for event in events {
        used(names, *event)?;
    }
    Ok(())
}

fn by_definition<'a>(
    alloc: Global,
    names: &mut Texts<'a>,
    definition: &'a Definition,
) -> Result<(), ReadFault>
    ensures { MatchResult result (λ _. texts names.new ≡ fold priorities.priority_used (with_name (texts names.old) definition.now.name.text) (value_events definition.now.value)) (λ e. e ≡ reason.Memory) }
{
    put_text(names, definition.name.text.as_slice())?;
    let events = events_of(alloc, &definition.value)?;
    all_used(names, events.as_slice())
}

fn by_statement<'a>(
    alloc: Global,
    names: &mut Texts<'a>,
    statement: &'a Statement,
) -> Result<(), ReadFault>
    ensures { MatchResult result (λ _. texts names.new ≡ priorities.priorities_by (texts names.old) statement.now) (λ e. e ≡ reason.Memory) }
{
    match statement {
        Statement::Definition(one) => by_definition(alloc, names, one),
        Statement::Machine(_)
        | Statement::Include(_)
        | Statement::Alphtype(_)
        | Statement::Access(_)
        | Statement::Variable(_)
        | Statement::Write(_)
        | Statement::Action(_) => Ok(()),
    }
}

fn behind<'a>(
    alloc: Global,
    machine: &[u8],
    names: &mut Texts<'a>,
    step: &'a Step,
) -> Result<(), ReadFault>
    ensures { MatchResult result (λ _. texts names.new ≡ priorities.priorities_behind machine.now (texts names.old) step.now) (λ e. e ≡ reason.Memory) }
{
    if is_of(machine, step) {
        by_statement(alloc, names, &step.statement)
    } else {
        Ok(())
    }
}

/// The names of the priorities of a machine, in the order of their numbers.
pub fn priorities_of<'a>(
    alloc: Global,
    machine: &[u8],
    own: &[&'a Step],
) -> Result<Texts<'a>, ReadFault>
    ensures { MatchResult result (λ names. texts names ≡ priorities.priorities_of machine.now (pointed own.now)) (λ e. e ≡ reason.Memory) }
{
    let mut names = IndexSet::new(alloc);
    for step in own {
        behind(alloc, machine, &mut names, *step)?;
    }
    Ok(names)
}
