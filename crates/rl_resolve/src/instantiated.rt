// The machines that have an instantiation, by one pass over the statements.
ghost use Rattle.std.specs.Prelude.{◌≡◌, ℕ, Bool, List, ◌||◌, if◌then◌else◌, MatchResult};
ghost use Rattle.std.specs.Str.{bytes_eq};
ghost use Rattle.rl_resolve.specs.Instances.{Shows, has_in};
ghost use Rattle.rl_resolve.specs.Resolving as resolving;
ghost use Rattle.rl_resolve.specs.declared.answer.ResolveFault.TheVariants as refusal;

use crate::answer::ResolveFault;
use indexmap::IndexMap;
use rl_grammar::Step;
use rl_grammar::syntax::{DefinitionSign, Statement};
use std::alloc::Global;

/// Whether machines have an instantiation; one that is not there has none.
pub type Instantiated<'a> = IndexMap<&'a [u8], bool>;

fn is_instantiation(sign: DefinitionSign) -> bool
    ensures { result ≡ resolving.is_instantiation sign }
{
    match sign {
        DefinitionSign::Name(_) => false,
        DefinitionSign::Instantiation(_) => true,
    }
}

fn instantiates(statement: &Statement) -> bool
    ensures { result ≡ resolving.instantiates statement.now }
{
    match statement {
        Statement::Definition(one) => is_instantiation(one.sign),
        Statement::Machine(_)
        | Statement::Include(_)
        | Statement::Alphtype(_)
        | Statement::Access(_)
        | Statement::Variable(_)
        | Statement::Write(_)
        | Statement::Action(_) => false,
    }
}

/// Whether a machine has an instantiation.
pub fn has_in(table: &Instantiated<'_>, machine: &[u8]) -> bool
    ensures { result ≡ has_in machine.now table.now }
{
    match table.get(machine) {
        Some(has) => *has,
        None => false,
    }
}

/// Notes whether a machine has an instantiation.
fn set_has<'a>(
    table: &mut Instantiated<'a>,
    machine: &'a [u8],
    has: bool,
) -> Result<(), ResolveFault>
    ensures { MatchResult result (λ _. (x : List ℕ) → has_in x table.new ≡ (if bytes_eq x machine.now then has else has_in x table.old)) (λ e. e ≡ refusal.Memory) }
{
    match table.insert(machine, has) {
        Ok(_) => Ok(()),
        Err(_) => Err(ResolveFault::Memory),
    }
}

fn has_by(has: bool, statement: &Statement) -> bool
    ensures { result ≡ (has || resolving.instantiates statement.now) }
{
    has || instantiates(statement)
}

/// One statement more is read.
fn read<'a>(table: &mut Instantiated<'a>, step: &'a Step) -> Result<(), ResolveFault>
    ensures { MatchResult result (λ _. (x : List ℕ) → has_in x table.new ≡ (has_in x table.old || resolving.is_instance x step.now)) (λ e. e ≡ refusal.Memory) }
{
    let machine = step.machine.bytes();
    let has = has_by(has_in(table, machine), &step.statement);
    set_has(table, machine, has)?;
    Ok(())
}

/// The machines that have an instantiation.
pub fn instantiated(alloc: Global, steps: &[Step]) -> Result<Instantiated<'_>, ResolveFault>
    ensures { MatchResult result (λ table. Shows steps.now table) (λ e. e ≡ refusal.Memory) }
{
    let mut table = IndexMap::new(alloc);
    for step in steps {
        read(&mut table, step)?;
    }
    Ok(table)
}
