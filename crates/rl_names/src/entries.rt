// The entries of one machine.
ghost use Rattle.std.specs.Prelude.{◌≡◌, MatchResult};
ghost use Rattle.rl_grammar.specs.declared.read_fault.ReadFault.TheVariants as reason;
ghost use Rattle.rl_names.specs.Entries as entries;
ghost use Rattle.rl_names.specs.TableForms.{texts, pointed};

use crate::frames::is_of;
use crate::texts::{Texts, put};
use indexmap::IndexSet;
use rl_grammar::syntax::{DefinitionSign, Statement};
use rl_grammar::{ReadFault, Step};
use std::alloc::Global;

fn with_sign<'a>(
    names: &mut Texts<'a>,
    sign: DefinitionSign,
    name: &'a [u8],
) -> Result<(), ReadFault>
    ensures { MatchResult result (λ _. texts names.new ≡ entries.entries_with (texts names.old) sign name.now) (λ e. e ≡ reason.Memory) }
{
    match sign {
        DefinitionSign::Name(_) => Ok(()),
        DefinitionSign::Instantiation(_) => {
            put(names, name)?;
            Ok(())
        }
    }
}

fn by_statement<'a>(names: &mut Texts<'a>, statement: &'a Statement) -> Result<(), ReadFault>
    ensures { MatchResult result (λ _. texts names.new ≡ entries.entries_by (texts names.old) statement.now) (λ e. e ≡ reason.Memory) }
{
    match statement {
        Statement::Definition(one) => with_sign(names, one.sign, one.name.text.as_slice()),
        Statement::Machine(_)
        | Statement::Include(_)
        | Statement::Alphtype(_)
        | Statement::Access(_)
        | Statement::Variable(_)
        | Statement::Write(_)
        | Statement::Action(_) => Ok(()),
    }
}

fn behind<'a>(machine: &[u8], names: &mut Texts<'a>, step: &'a Step) -> Result<(), ReadFault>
    ensures { MatchResult result (λ _. texts names.new ≡ entries.entries_behind machine.now (texts names.old) step.now) (λ e. e ≡ reason.Memory) }
{
    if is_of(machine, step) {
        by_statement(names, &step.statement)
    } else {
        Ok(())
    }
}

/// The entries of a machine, in text order.
pub fn entries_of<'a>(
    alloc: Global,
    machine: &[u8],
    own: &[&'a Step],
) -> Result<Texts<'a>, ReadFault>
    ensures { MatchResult result (λ names. texts names ≡ entries.entries_of machine.now (pointed own.now)) (λ e. e ≡ reason.Memory) }
{
    let mut names = IndexSet::new(alloc);
    for step in own {
        behind(machine, &mut names, *step)?;
    }
    Ok(names)
}
