// The instantiations of all machines, and the words of code that name none of them.
ghost use Rattle.std.specs.Prelude.{◌≡◌, ℕ, List, Some, ◌&&◌, ◌||◌, MatchResult};
ghost use Rattle.rl_grammar.specs.declared.read_fault.ReadFault.TheVariants as reason;
ghost use Rattle.rl_names.specs.Answers.{Tells};
ghost use Rattle.rl_names.specs.Codes as codes;
ghost use Rattle.rl_names.specs.Entries as entries;
ghost use Rattle.rl_names.specs.Names.{same};
ghost use Rattle.rl_names.specs.TableForms.{has_in};

use crate::codes::{place_in, said_in};
use crate::memory::fault_at;
use crate::tables::Named;
use indexmap::IndexSet;
use rl_code::{Said, Saying};
use rl_grammar::syntax::{DefinitionSign, Statement, Word};
use rl_grammar::{ReadFault, Step};
use rl_types::FaultKind;
use std::alloc::Global;

/// The names of the instantiations of all machines.
pub type Instances<'a> = IndexSet<Named<'a>>;

// ---- all instantiations

/// Notes an instantiation.
fn put<'a>(
    instances: &mut Instances<'a>,
    machine: &'a [u8],
    name: &'a [u8],
) -> Result<(), ReadFault>
    ensures { MatchResult result (λ _. (m n : List ℕ) → has_in m instances.new n ≡ (has_in m instances.old n || same (m, n) (machine.now, name.now))) (λ e. e ≡ reason.Memory) }
{
    match instances.insert((machine, name)) {
        Ok(_) => Ok(()),
        Err(_) => Err(ReadFault::Memory),
    }
}

fn with_sign<'a>(
    instances: &mut Instances<'a>,
    machine: &'a [u8],
    sign: DefinitionSign,
    name: &'a [u8],
) -> Result<(), ReadFault>
    ensures { MatchResult result (λ _. (m n : List ℕ) → has_in m instances.new n ≡ (has_in m instances.old n || entries.instantiates sign && same (m, n) (machine.now, name.now))) (λ e. e ≡ reason.Memory) }
{
    match sign {
        DefinitionSign::Name(_) => Ok(()),
        DefinitionSign::Instantiation(_) => put(instances, machine, name),
    }
}

fn by_statement<'a>(
    instances: &mut Instances<'a>,
    machine: &'a [u8],
    statement: &'a Statement,
) -> Result<(), ReadFault>
    ensures { MatchResult result (λ _. (m n : List ℕ) → has_in m instances.new n ≡ (has_in m instances.old n || entries.is_entered m n machine.now statement.now)) (λ e. e ≡ reason.Memory) }
{
    match statement {
        Statement::Definition(one) => {
            with_sign(instances, machine, one.sign, one.name.text.as_slice())
        }
        Statement::Machine(_)
        | Statement::Include(_)
        | Statement::Alphtype(_)
        | Statement::Access(_)
        | Statement::Variable(_)
        | Statement::Write(_)
        | Statement::Action(_) => Ok(()),
    }
}

fn behind<'a>(instances: &mut Instances<'a>, step: &'a Step) -> Result<(), ReadFault>
    ensures { MatchResult result (λ _. (m n : List ℕ) → has_in m instances.new n ≡ (has_in m instances.old n || entries.is_entered m n step.now.machine step.now.statement)) (λ e. e ≡ reason.Memory) }
{
    by_statement(instances, step.machine.bytes(), &step.statement)
}

/// The instantiations of all machines.
pub fn instances_of(alloc: Global, steps: &[Step]) -> Result<Instances<'_>, ReadFault>
    ensures { MatchResult result (λ instances. (m n : List ℕ) → has_in m instances n ≡ entries.is_entry m steps.now n) (λ e. e ≡ reason.Memory) }
{
    let mut instances = IndexSet::new(alloc);
    for step in steps {
        behind(&mut instances, step)?;
    }
    Ok(instances)
}

// ---- words that name none

/// Whether a machine has an instantiation.
fn has(instances: &Instances<'_>, machine: &[u8], name: &[u8]) -> bool
    ensures { result ≡ has_in machine.now instances.now name.now }
{
    instances.contains(&(machine, name))
}

fn is_unnamed(instances: &Instances<'_>, machine: &[u8], said: &Said) -> bool
    ensures { result ≡ codes.is_unnamed (has_in machine.now instances.now) said.now }
{
    match &said.saying {
        Saying::Control(control) => match &control.target {
            Some(name) => !has(instances, machine, name.bytes()),
            None => false,
        },
        Saying::Entry(name) => !has(instances, machine, name.bytes()),
        Saying::Position | Saying::Character | Saying::Misplaced => false,
    }
}

fn first_unnamed(instances: &Instances<'_>, machine: &[u8], said: &[Said]) -> Option<usize>
    ensures { result ≡ codes.first_unnamed (has_in machine.now instances.now) said.now }
{
    for one in said {
        if is_unnamed(instances, machine, one) {
            return Some(one.from);
        }
    }
    None
}

fn unnamed(code: &Word, from: usize) -> Result<(), ReadFault>
    ensures { Tells (Some (codes.unnamed code.now from)) result }
{
    let place = place_in(code, from)?;
    Err(fault_at(FaultKind::F16, place))
}

/// The entries that a code names.
pub fn entries(
    alloc: Global,
    instances: &Instances<'_>,
    machine: &[u8],
    code: &Word,
) -> Result<(), ReadFault>
    ensures { Tells (codes.entry_fault (has_in machine.now instances.now) code.now) result }
{
    let said = said_in(alloc, code.text.as_slice())?;
    match first_unnamed(instances, machine, said.as_slice()) {
        Some(from) => unnamed(code, from),
        None => Ok(()),
    }
}
