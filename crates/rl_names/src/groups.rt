// The statements of each machine, by one pass over all.
ghost use Rattle.std.specs.Prelude.{◌≡◌, ℕ, List, [], ◌∷◌, ◌++◌, filter, MatchResult};
ghost use Rattle.rl_grammar.specs.declared.read_fault.ReadFault.TheVariants as reason;
ghost use Rattle.rl_names.specs.Frames.{is_of};
ghost use Rattle.rl_names.specs.TableForms.{own_in, instead, pointed};

use crate::memory::push;
use indexmap::IndexMap;
use rl_grammar::{ReadFault, Step};
use std::alloc::Global;

/// The statements of each machine, in text order.
pub type Groups<'a> = IndexMap<&'a [u8], rl_types::List<&'a Step>>;

/// The statements of a machine.
pub fn own_in<'a>(groups: &'a Groups<'a>, machine: &[u8]) -> &'a [&'a Step]
    ensures { result.now ≡ own_in machine.now groups.now }
{
    let Some(own) = groups.get(machine) else {
        return &[];
    };
    own.as_slice()
}

/// Takes the statements of a machine out.
fn take_own<'a>(
    alloc: Global,
    groups: &mut Groups<'a>,
    machine: &'a [u8],
) -> Result<rl_types::List<&'a Step>, ReadFault>
    ensures { MatchResult result (λ own. (own ≡ own_in machine.now groups.old) × ((x : List ℕ) → own_in x groups.new ≡ instead x machine.now [] (own_in x groups.old))) (λ e. e ≡ reason.Memory) }
{
    match groups.insert(machine, rl_types::List::new(alloc)) {
        Ok(Some(own)) => Ok(own),
        Ok(None) => Ok(rl_types::List::new(alloc)),
        Err(_) => Err(ReadFault::Memory),
    }
}

/// Puts the statements of a machine in place of what it has.
fn set_own<'a>(
    groups: &mut Groups<'a>,
    machine: &'a [u8],
    own: rl_types::List<&'a Step>,
) -> Result<(), ReadFault>
    ensures { MatchResult result (λ _. (x : List ℕ) → own_in x groups.new ≡ instead x machine.now own.entry (own_in x groups.old)) (λ e. e ≡ reason.Memory) }
{
    match groups.insert(machine, own) {
        Ok(_) => Ok(()),
        Err(_) => Err(ReadFault::Memory),
    }
}

/// One statement more.
fn add<'a>(alloc: Global, groups: &mut Groups<'a>, step: &'a Step) -> Result<(), ReadFault>
    ensures { MatchResult result (λ _. (x : List ℕ) → pointed (own_in x groups.new) ≡ pointed (own_in x groups.old) ++ filter (is_of x) (step.now ∷ [])) (λ e. e ≡ reason.Memory) }
{
    let machine = step.machine.bytes();
    let mut own = take_own(alloc, groups, machine)?;
    push(&mut own, step)?;
    set_own(groups, machine, own)?;
    Ok(())
}

/// The statements of each machine.
pub fn groups_of(alloc: Global, steps: &[Step]) -> Result<Groups<'_>, ReadFault>
    ensures { MatchResult result (λ groups. (x : List ℕ) → pointed (own_in x groups) ≡ filter (is_of x) steps.now) (λ e. e ≡ reason.Memory) }
{
    let mut groups = IndexMap::new(alloc);
    for step in steps {
        add(alloc, &mut groups, step)?;
    }
    Ok(groups)
}
