// The drafts of a source's machines.
ghost use Rattle.std.specs.Prelude.{◌≡◌, map, MatchResult};
ghost use Rattle.rl_grammar.specs.declared.read_fault.ReadFault.TheVariants as reason;
ghost use Rattle.rl_names.specs.Answers.{Gives, each};
ghost use Rattle.rl_names.specs.Drafts as drafts;
ghost use Rattle.rl_names.specs.Frames as frames;
ghost use Rattle.rl_names.specs.Priorities.{priorities_of};
ghost use Rattle.rl_names.specs.TableForms.{texts, pointed, own_in};

use crate::actions::{actions_of, names_of};
use crate::base::Base;
use crate::definitions::definitions_of;
use crate::frames::{alphabet_of, frame_of, is_included, writes_of};
use crate::groups::{Groups, groups_of, own_in};
use crate::memory::{NameFault, name_of, push};
use crate::priorities::priorities_of;
use crate::texts::{Texts, put};
use indexmap::IndexSet;
use rl_draft::{Definition, Draft};
use rl_grammar::syntax::Statement;
use rl_grammar::{ReadFault, Step};
use rl_model::ActionDef;
use rl_types::{List, Name};
use std::alloc::Global;

fn machine_by<'a>(names: &mut Texts<'a>, statement: &'a Statement) -> Result<(), ReadFault>
    ensures { MatchResult result (λ _. texts names.new ≡ frames.machine_by (texts names.old) statement.now) (λ e. e ≡ reason.Memory) }
{
    match statement {
        Statement::Machine(one) => {
            put(names, one.name.text.as_slice())?;
            Ok(())
        }
        Statement::Include(_)
        | Statement::Alphtype(_)
        | Statement::Access(_)
        | Statement::Variable(_)
        | Statement::Write(_)
        | Statement::Action(_)
        | Statement::Definition(_) => Ok(()),
    }
}

fn machine_behind<'a>(names: &mut Texts<'a>, step: &'a Step) -> Result<(), ReadFault>
    ensures { MatchResult result (λ _. texts names.new ≡ frames.machine_behind (texts names.old) step.now) (λ e. e ≡ reason.Memory) }
{
    if is_included(step) {
        Ok(())
    } else {
        machine_by(names, &step.statement)
    }
}

/// The machines that the source itself names, in order of first mention.
fn machines_of(alloc: Global, steps: &[Step]) -> Result<Texts<'_>, ReadFault>
    ensures { MatchResult result (λ names. texts names ≡ frames.machines_of steps.now) (λ e. e ≡ reason.Memory) }
{
    let mut names = IndexSet::new(alloc);
    for step in steps {
        machine_behind(&mut names, step)?;
    }
    Ok(names)
}

fn definitions_by(
    alloc: Global,
    machine: &[u8],
    own: &[&Step],
    actions: &Texts<'_>,
    priorities: &Texts<'_>,
) -> Result<List<Definition>, ReadFault>
    requires { texts priorities.now ≡ priorities_of machine.now (pointed own.now) }
    ensures { Gives (drafts.definitions_of (drafts.scope_of (texts actions.now) machine.now (pointed own.now)) machine.now (pointed own.now)) result }
{
    let base = Base {
        alphabet: alphabet_of(machine, own),
        actions,
        priorities,
    };
    definitions_of(alloc, &base, machine, own)
}

fn definitions_with(
    alloc: Global,
    machine: &[u8],
    own: &[&Step],
    actions: &[ActionDef],
) -> Result<List<Definition>, ReadFault>
    ensures { Gives (drafts.definitions_with (pointed own.now) machine.now actions.now) result }
{
    let names = names_of(alloc, actions)?;
    let priorities = priorities_of(alloc, machine, own)?;
    definitions_by(alloc, machine, own, &names, &priorities)
}

fn draft_with(
    alloc: Global,
    machine: &[u8],
    own: &[&Step],
    actions: List<ActionDef>,
    definitions: List<Definition>,
) -> Result<Draft, ReadFault>
    ensures { MatchResult result (λ draft. draft ≡ drafts.draft_with (pointed own.now) machine.now actions definitions) (λ e. e ≡ reason.Memory) }
{
    let frame = frame_of(alloc, machine, own)?;
    let writes = writes_of(alloc, machine, own)?;
    Ok(Draft {
        machine: name_of(alloc, machine)?,
        alphabet: alphabet_of(machine, own),
        definitions,
        actions,
        frame,
        writes,
    })
}

fn draft_of(alloc: Global, own: &[&Step], machine: &[u8]) -> Result<Draft, ReadFault>
    ensures { Gives (drafts.draft_of (pointed own.now) machine.now) result }
{
    let actions = actions_of(alloc, machine, own)?;
    let definitions = definitions_with(alloc, machine, own, actions.as_slice())?;
    draft_with(alloc, machine, own, actions, definitions)
}

fn draft_named(alloc: Global, groups: &Groups<'_>, machine: &Name) -> Result<Draft, ReadFault>
    ensures { Gives (drafts.draft_of (pointed (own_in machine.now groups.now)) machine.now) result }
{
    let name = machine.bytes();
    draft_of(alloc, own_in(groups, name), name)
}

/// Names that own their bytes.
fn owned(alloc: Global, all: &[&[u8]]) -> Result<List<Name>, ReadFault>
    ensures { MatchResult result (λ names. names ≡ map (λ name. name.now) all.now) (λ e. e ≡ reason.Memory) }
{
    let mut names = List::new(alloc);
    for one in all {
        let name = name_of(alloc, one)?;
        push(&mut names, name)?;
    }
    Ok(names)
}

fn drafts_of(
    alloc: Global,
    groups: &Groups<'_>,
    machines: &[Name],
) -> Result<List<Draft>, ReadFault>
    ensures { Gives (each (λ m. drafts.draft_of (pointed (own_in m groups.now)) m) machines.now) result }
{
    let mut found = List::new(alloc);
    for machine in machines {
        let draft = draft_named(alloc, groups, machine)?;
        push(&mut found, draft)?;
    }
    Ok(found)
}

/// The machines that the `machine` statements (2.1.1) of the source itself name, in order of first mention. A machine that
/// only an included file names is not among them (this profile). The one error is want of memory.
pub fn machine_names(alloc: Global, steps: &[Step]) -> Result<List<Name>, NameFault>
    ensures { MatchResult result (λ names. names ≡ frames.machines_of steps.now) (λ e. e ≡ reason.Memory) }
{
    let machines = machines_of(alloc, steps)?;
    owned(alloc, machines.as_slice())
}

/// The drafts of the machines of `machine_names`, in their order. A machine is read by the statements that belong to it,
/// those of included files in their place; names become numbers, keys become sets of values.
///
/// This is no test of the source: `check_names` and `check_leaves` are, and come before it. An error is the
/// first of the first machine that has one: F6 at the second of two actions or definitions of one name, F5 at a name that
/// is not defined earlier, F8 and F9 as in `check_leaves`, and F7, F10 and F11 at what the parser refuses already. Memory
/// may be wanted at any time.
pub fn drafts(alloc: Global, steps: &[Step]) -> Result<List<Draft>, NameFault>
    ensures { Gives (drafts.drafts_of steps.now) result }
{
    let names = machine_names(alloc, steps)?;
    let groups = groups_of(alloc, steps)?;
    drafts_of(alloc, &groups, names.as_slice())
}
