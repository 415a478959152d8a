// The faults of keys and of entries: the first of them in text order.
ghost use Rattle.std.specs.Prelude.{◌≡◌, ℕ, List, map};
ghost use Rattle.rl_names.specs.Answers.{Tells, first_of};
ghost use Rattle.rl_names.specs.Checks as checks;
ghost use Rattle.rl_names.specs.Events.{seen as shown};
ghost use Rattle.rl_names.specs.Entries.{is_entry};
ghost use Rattle.rl_names.specs.Frames.{alphabet_of};
ghost use Rattle.rl_names.specs.TableForms.{alphabet_in, has_in};

use crate::alphabets::{Alphabets, alphabet_in, alphabets_of};
use crate::events::{Event, events_of};
use crate::instances::{Instances, entries, instances_of};
use crate::leaves::leaf_of;
use crate::memory::NameFault;
use rl_grammar::syntax::Statement;
use rl_grammar::{ReadFault, Step};
use rl_types::Alphabet;
use std::alloc::Global;

/// The keys and entries that an expression uses.
fn leaf(
    alloc: Global,
    alphabet: Alphabet,
    instances: &Instances<'_>,
    machine: &[u8],
    event: &Event<'_>,
) -> Result<(), ReadFault>
    ensures { Tells (checks.leaf_fault alphabet (has_in machine.now instances.now) (shown event.now)) result }
{
    match event {
        Event::Leaf(operand) => match leaf_of(alloc, alphabet, operand) {
            Ok(_) => Ok(()),
            Err(fault) => Err(fault),
        },
        Event::Code(word) => entries(alloc, instances, machine, word),
        Event::Name(_)
        | Event::Action(_)
        | Event::Priority(_)
        | Event::Quiet(_, _)
        | Event::Embeds(_)
        | Event::Ends(_)
        | Event::Barred(_)
        | Event::Taken(_, _) => Ok(()),
    }
}

fn leaves(
    alloc: Global,
    alphabet: Alphabet,
    instances: &Instances<'_>,
    machine: &[u8],
    events: &[Event<'_>],
) -> Result<(), ReadFault>
    ensures { Tells (first_of (checks.leaf_fault alphabet (has_in machine.now instances.now)) (map shown events.now)) result }
{
    for event in events {
        leaf(alloc, alphabet, instances, machine, event)?;
    }
    Ok(())
}

fn statement_leaves(
    alloc: Global,
    alphabet: Alphabet,
    instances: &Instances<'_>,
    machine: &[u8],
    statement: &Statement,
) -> Result<(), ReadFault>
    ensures { Tells (checks.statement_leaf_fault alphabet (has_in machine.now instances.now) statement.now) result }
{
    match statement {
        Statement::Definition(one) => {
            let events = events_of(alloc, &one.value)?;
            leaves(alloc, alphabet, instances, machine, events.as_slice())
        }
        Statement::Action(one) => entries(alloc, instances, machine, &one.code),
        Statement::Machine(_)
        | Statement::Include(_)
        | Statement::Alphtype(_)
        | Statement::Access(_)
        | Statement::Variable(_)
        | Statement::Write(_) => Ok(()),
    }
}

/// The keys and entries of a step among all.
fn step_leaves(
    alloc: Global,
    alphabets: &Alphabets<'_>,
    instances: &Instances<'_>,
    steps: &[Step],
    step: &Step,
) -> Result<(), ReadFault>
    requires alphabets { (x : List ℕ) → alphabet_in x alphabets.now ≡ alphabet_of x steps.now }
    requires instances { (m n : List ℕ) → has_in m instances.now n ≡ is_entry m steps.now n }
    ensures { Tells (checks.step_leaf_fault steps.now step.now) result }
{
    let _ = steps;
    let machine = step.machine.bytes();
    let alphabet = alphabet_in(alphabets, machine);
    statement_leaves(alloc, alphabet, instances, machine, &step.statement)
}

/// Whether the keys of a source are good, and the entries that its code names; the error is the first fault of them in text
/// order.
///
/// F8 stands at a key outside the alphabet of its machine, which the machine's last `alphtype` names (5.2; this profile);
/// F9 at a range whose lower end is above the upper one, or at the set or regular expression that has it (2.3); F16 at a
/// word of code that names no instantiation of its machine, which may stand behind it (6.1). Memory may be wanted at any
/// time.
pub fn check_leaves(alloc: Global, steps: &[Step]) -> Result<(), NameFault>
    ensures { Tells (checks.leaves_fault steps.now) result }
{
    let alphabets = alphabets_of(alloc, steps)?;
    let instances = instances_of(alloc, steps)?;
    for step in steps {
        step_leaves(alloc, &alphabets, &instances, steps, step)?;
    }
    Ok(())
}
