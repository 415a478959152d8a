// Which machines there are, and which have an instantiation.
ghost use Rattle.std.specs.Prelude.{◌≡◌, bytes_eq, option_copied, MatchResult};
ghost use Rattle.rl_names.specs.Answers.{first_of};
ghost use Rattle.rl_names.specs.Frames as frames;
ghost use Rattle.rl_names.specs.Leaves as leaves;
ghost use Rattle.rl_resolve.specs.Instances.{Shows};
ghost use Rattle.rl_resolve.specs.Resolving as resolving;
ghost use Rattle.rl_resolve.specs.declared.answer.ResolveFault.TheVariants as refusal;

use crate::answer::{ResolveFault, Runs};
use crate::instantiated::{Instantiated, has_in, instantiated};
use rl_grammar::syntax::Statement;
use rl_grammar::{ReadFault, Step};
use rl_types::{Fault, FaultKind, Name, Place};
use std::alloc::Global;

fn fault_at(kind: FaultKind, place: Place) -> ReadFault
    ensures { result ≡ leaves.fault_at kind place }
{
    ReadFault::Fault(Fault { kind, place })
}

/// At the head of the source.
fn at_head(kind: FaultKind) -> ReadFault
    ensures { result ≡ resolving.at_head kind }
{
    let place = Place {
        file: 0,
        line: 1,
        col: 1,
    };
    fault_at(kind, place)
}

fn unless(good: bool, fault: ReadFault) -> Option<ReadFault>
    ensures { result ≡ resolving.unless good fault }
{
    if good { None } else { Some(fault) }
}

fn is_named(name: &[u8], machine: &Name) -> bool
    ensures { result ≡ bytes_eq name.now machine.now }
{
    name == machine.bytes()
}

fn is_among(name: &[u8], machines: &[Name]) -> bool
    ensures { result ≡ resolving.is_among name.now machines.now }
{
    machines.iter().any(|machine| is_named(name, machine))
}

fn has_machine(which: Runs<'_>, machines: &[Name]) -> bool
    ensures { result ≡ resolving.has_machine which.entry machines.now }
{
    match machines {
        [] => false,
        [_, ..] => match which {
            Runs::Nobody => true,
            Runs::First => true,
            Runs::Named(name) => is_among(name.as_bytes(), machines),
        },
    }
}

/// F4 where the source has no machine, or not the one that is to run.
pub fn machine_fault(which: Runs<'_>, machines: &[Name]) -> Option<ReadFault>
    ensures { result ≡ resolving.machine_fault which.entry machines.now }
{
    unless(has_machine(which, machines), at_head(FaultKind::F4))
}

/// The step belongs to the machine.
pub fn is_of(machine: &[u8], step: &Step) -> bool
    ensures { result ≡ frames.is_of machine.now step.now }
{
    machine == step.machine.bytes()
}

/// The table says it of all machines of these statements.
fn has_instance(table: &Instantiated<'_>, steps: &[Step], machine: &[u8]) -> bool
    requires { Shows steps.now table.now }
    ensures { result ≡ resolving.has_instance steps.now machine.now }
{
    let _ = steps;
    has_in(table, machine)
}

fn written_fault(
    table: &Instantiated<'_>,
    steps: &[Step],
    machine: &[u8],
    statement: &Statement,
) -> Option<ReadFault>
    requires { Shows steps.now table.now }
    ensures { result ≡ resolving.written_fault steps.now machine.now statement.now }
{
    match statement {
        Statement::Write(one) => unless(
            has_instance(table, steps, machine),
            fault_at(FaultKind::F18, one.start),
        ),
        Statement::Machine(_)
        | Statement::Include(_)
        | Statement::Alphtype(_)
        | Statement::Access(_)
        | Statement::Variable(_)
        | Statement::Action(_)
        | Statement::Definition(_) => None,
    }
}

fn first_written(table: &Instantiated<'_>, steps: &[Step]) -> Option<ReadFault>
    requires { Shows steps.now table.now }
    ensures { result ≡ first_of (λ s. resolving.written_fault steps.now s.machine s.statement) steps.now }
{
    for step in steps {
        let fault = written_fault(table, steps, step.machine.bytes(), &step.statement);
        if fault.is_some() {
            return fault;
        }
    }
    None
}

/// The machine that runs.
fn running<'a>(which: Runs<'a>, machines: &'a [Name]) -> Option<&'a [u8]>
    ensures { option_copied result ≡ resolving.running which.entry machines.now }
{
    match which {
        Runs::Nobody => None,
        Runs::First => match machines {
            [] => None,
            [first, ..] => Some(first.bytes()),
        },
        Runs::Named(name) => Some(name.as_bytes()),
    }
}

fn running_fault(
    table: &Instantiated<'_>,
    steps: &[Step],
    machine: Option<&[u8]>,
) -> Option<ReadFault>
    requires { Shows steps.now table.now }
    ensures { result ≡ resolving.running_fault steps.now (option_copied machine.entry) }
{
    match machine {
        None => None,
        Some(machine) => unless(has_instance(table, steps, machine), at_head(FaultKind::F18)),
    }
}

fn fault_in(
    table: &Instantiated<'_>,
    which: Runs<'_>,
    steps: &[Step],
    machines: &[Name],
) -> Option<ReadFault>
    requires { Shows steps.now table.now }
    ensures { result ≡ resolving.instance_fault which.entry steps.now machines.now }
{
    match first_written(table, steps) {
        Some(fault) => Some(fault),
        None => running_fault(table, steps, running(which, machines)),
    }
}

/// F18 at the first `write` of a machine without an instantiation, or where the machine that runs has none. Want of memory
/// is told.
pub fn instance_fault(
    alloc: Global,
    which: Runs<'_>,
    steps: &[Step],
    machines: &[Name],
) -> Result<Option<ReadFault>, ResolveFault>
    ensures { MatchResult result (λ fault. fault ≡ resolving.instance_fault which.entry steps.now machines.now) (λ e. e ≡ refusal.Memory) }
{
    let table = instantiated(alloc, steps)?;
    Ok(fault_in(&table, which, steps, machines))
}
