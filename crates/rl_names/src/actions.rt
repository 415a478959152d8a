// The actions of one machine, in the order in which their definitions, or the `{` of those without a name, are read.
ghost use Rattle.std.specs.Prelude.{◌≡◌, [], ◌∷◌, ◌++◌, fold, map, decimal, OnOk, MatchResult};
ghost use Rattle.rl_grammar.specs.declared.read_fault.ReadFault.TheVariants as reason;
ghost use Rattle.rl_names.specs.Actions as actions;
ghost use Rattle.rl_names.specs.Answers.{Explains};
ghost use Rattle.rl_names.specs.Events.{seen as shown, value_events};
ghost use Rattle.rl_names.specs.TableForms.{texts, pointed};

use crate::entries::entries_of;
use crate::events::{Event, events_of};
use crate::frames::is_of;
use crate::memory::{fault_at, name_of, push};
use crate::statements::statements_in;
use crate::texts::{Texts, put};
use indexmap::IndexSet;
use itoa::Buffer;
use rl_grammar::syntax::{Statement, Union, Word};
use rl_grammar::{ReadFault, Step};
use rl_model::ActionDef;
use rl_types::{Code, FaultKind, List, Place};
use std::alloc::{AllocError, Global};

fn push_number(text: &mut Vec<u8>, number: u64) -> Result<(), AllocError>
    ensures { OnOk result (text.new.items ≡ text.old.items ++ decimal number) }
{
    text.extend_from_slice(Buffer::new().format(number).as_bytes())
}

fn push_file(text: &mut Vec<u8>, file: u64) -> Result<(), AllocError>
    ensures { OnOk result (text.new.items ≡ text.old.items ++ actions.file_part file) }
{
    text.extend_from_slice(b"@")?;
    if file == 0 {
        return Ok(());
    }
    push_number(text, file)?;
    text.extend_from_slice(b":")
}

fn push_place(text: &mut Vec<u8>, place: Place) -> Result<(), AllocError>
    ensures { OnOk result (text.new.items ≡ text.old.items ++ actions.anonymous_name place) }
{
    push_file(text, place.file)?;
    push_number(text, u64::from(place.line))?;
    text.extend_from_slice(b":")?;
    push_number(text, u64::from(place.col))
}

/// The name of an action without one: the place of its `{`, with the file's number where that is not 0 (this profile).
pub fn anonymous_name(alloc: Global, place: Place) -> Result<Vec<u8>, ReadFault>
    ensures { MatchResult result (λ name. name.items ≡ actions.anonymous_name place) (λ e. e ≡ reason.Memory) }
{
    let mut text = Vec::new(alloc);
    match push_place(&mut text, place) {
        Ok(()) => Ok(text),
        Err(_) => Err(ReadFault::Memory),
    }
}

fn code_of(alloc: Global, bytes: &[u8]) -> Result<Code, ReadFault>
    ensures { MatchResult result (λ code. code ≡ bytes.now) (λ e. e ≡ reason.Memory) }
{
    match Vec::from_slice(alloc, bytes) {
        Ok(bytes) => Ok(Code::new(bytes)),
        Err(_) => Err(ReadFault::Memory),
    }
}

fn action_def(
    alloc: Global,
    entries: &Texts<'_>,
    name: &[u8],
    code: &Word,
) -> Result<ActionDef, ReadFault>
    ensures { MatchResult result (λ a. a ≡ actions.action_def (texts entries.now) name.now code.now) (λ e. e ≡ reason.Memory) }
{
    let name = name_of(alloc, name)?;
    let text = code_of(alloc, code.text.as_slice())?;
    let statements = statements_in(alloc, entries, code.text.as_slice())?;
    Ok(ActionDef {
        name,
        code: text,
        statements,
        place: code.place,
    })
}

fn add(
    alloc: Global,
    entries: &Texts<'_>,
    list: &mut List<ActionDef>,
    name: &[u8],
    code: &Word,
) -> Result<(), ReadFault>
    ensures { MatchResult result (λ _. list.new ≡ list.old ++ actions.action_def (texts entries.now) name.now code.now ∷ []) (λ e. e ≡ reason.Memory) }
{
    let action = action_def(alloc, entries, name, code)?;
    push(list, action)
}

fn used(
    alloc: Global,
    entries: &Texts<'_>,
    list: &mut List<ActionDef>,
    event: &Event<'_>,
) -> Result<(), ReadFault>
    ensures { MatchResult result (λ _. list.new ≡ actions.action_used (texts entries.now) list.old (shown event.now)) (λ e. e ≡ reason.Memory) }
{
    match event {
        Event::Code(word) => {
            let name = anonymous_name(alloc, word.place)?;
            add(alloc, entries, list, name.as_slice(), word)
        }
        Event::Leaf(_)
        | Event::Name(_)
        | Event::Action(_)
        | Event::Priority(_)
        | Event::Quiet(_, _)
        | Event::Embeds(_)
        | Event::Ends(_)
        | Event::Barred(_)
        | Event::Taken(_, _) => Ok(()),
    }
}

fn all_used(
    alloc: Global,
    entries: &Texts<'_>,
    list: &mut List<ActionDef>,
    events: &[Event<'_>],
) -> Result<(), ReadFault>
    ensures { MatchResult result (λ _. list.new ≡ fold (actions.action_used (texts entries.now)) list.old (map shown events.now)) (λ e. e ≡ reason.Memory) }
{
    for event in events {
        used(alloc, entries, list, event)?;
    }
    Ok(())
}

fn value_used(
    alloc: Global,
    entries: &Texts<'_>,
    list: &mut List<ActionDef>,
    value: &Union,
) -> Result<(), ReadFault>
    ensures { MatchResult result (λ _. list.new ≡ fold (actions.action_used (texts entries.now)) list.old (value_events value.now)) (λ e. e ≡ reason.Memory) }
{
    let events = events_of(alloc, value)?;
    all_used(alloc, entries, list, events.as_slice())
}

fn by_statement(
    alloc: Global,
    entries: &Texts<'_>,
    list: &mut List<ActionDef>,
    statement: &Statement,
) -> Result<(), ReadFault>
    ensures { MatchResult result (λ _. list.new ≡ actions.actions_by (texts entries.now) list.old statement.now) (λ e. e ≡ reason.Memory) }
{
    match statement {
        Statement::Action(one) => { add(alloc, entries, list, one.name.text.as_slice(), &one.code) }
        Statement::Definition(one) => value_used(alloc, entries, list, &one.value),
        Statement::Machine(_)
        | Statement::Include(_)
        | Statement::Alphtype(_)
        | Statement::Access(_)
        | Statement::Variable(_)
        | Statement::Write(_) => Ok(()),
    }
}

fn behind(
    alloc: Global,
    entries: &Texts<'_>,
    machine: &[u8],
    list: &mut List<ActionDef>,
    step: &Step,
) -> Result<(), ReadFault>
    ensures { MatchResult result (λ _. list.new ≡ actions.actions_behind (texts entries.now) machine.now list.old step.now) (λ e. e ≡ reason.Memory) }
{
    if is_of(machine, step) {
        by_statement(alloc, entries, list, &step.statement)
    } else {
        Ok(())
    }
}

/// The actions of a machine that has these entries.
fn actions_among(
    alloc: Global,
    entries: &Texts<'_>,
    machine: &[u8],
    own: &[&Step],
) -> Result<List<ActionDef>, ReadFault>
    ensures { MatchResult result (λ list. list ≡ fold (actions.actions_behind (texts entries.now) machine.now) [] (pointed own.now)) (λ e. e ≡ reason.Memory) }
{
    let mut list = List::new(alloc);
    for step in own {
        behind(alloc, entries, machine, &mut list, *step)?;
    }
    Ok(list)
}

/// The actions of a machine.
pub fn actions_of(
    alloc: Global,
    machine: &[u8],
    own: &[&Step],
) -> Result<List<ActionDef>, ReadFault>
    ensures { MatchResult result (λ list. list ≡ actions.actions_of machine.now (pointed own.now)) (λ e. e ≡ reason.Memory) }
{
    let entries = entries_of(alloc, machine, own)?;
    actions_among(alloc, &entries, machine, own)
}

fn put_name<'a>(names: &mut Texts<'a>, action: &'a ActionDef) -> Result<(), ReadFault>
    ensures { MatchResult result (λ _. actions.named_behind (texts names.old) action.now ≡ Ok (texts names.new)) (Explains (actions.named_behind (texts names.old) action.now)) }
{
    if put(names, action.name.bytes())? {
        Ok(())
    } else {
        Err(fault_at(FaultKind::F6, action.place))
    }
}

/// The names of actions, in order; none stands twice.
pub fn names_of<'a>(alloc: Global, list: &'a [ActionDef]) -> Result<Texts<'a>, ReadFault>
    ensures { MatchResult result (λ names. actions.action_names list.now ≡ Ok (texts names)) (Explains (actions.action_names list.now)) }
{
    let mut names = IndexSet::new(alloc);
    for action in list {
        put_name(&mut names, action)?;
    }
    Ok(names)
}
