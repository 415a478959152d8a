// The machines of a source, rewritten.
ghost use Rattle.std.specs.Prelude.{◌≡◌, [], map, Some, None, MatchResult};
ghost use Rattle.rl_rewrite.specs.Entries.{made_of, meanings, entries, all_conditions, first_limit};
ghost use Rattle.rl_resolve.specs.Machines.{IsNext, AreBehind, AreAll};
ghost use Rattle.rl_resolve.specs.declared.answer.ResolveFault.TheVariants as refusal;

use crate::answer::ResolveFault;
use crate::limits::Passed;
use crate::memory::{copies, push, reversed};
use crate::spec::spec_of;
use rl_draft::Draft;
use rl_model::Spec;
use rl_rewrite::{RewriteFault, Rewritten, rewrite};
use rl_types::{Limit, List, Name};
use std::alloc::Global;

/// The Specs of the machines that pass no limit, and the first limit of each other machine.
#[derive(Drop)]
pub struct Machines {
    pub specs: List<Spec>,
    pub passed: List<Passed>,
}

fn keep(
    alloc: Global,
    files: &[Name],
    draft: Draft,
    rewritten: Rewritten,
    machines: &mut Machines,
) -> Result<(), ResolveFault>
    requires entries { map made_of rewritten.entries ≡ entries [] (meanings draft) }
    requires conditions { rewritten.conditions ≡ all_conditions [] (meanings draft) }
    requires within { first_limit [] (meanings draft) ≡ None }
    ensures { MatchResult result (λ _. IsNext files.now draft machines.old machines.new) (λ e. e ≡ refusal.Memory) }
{
    let files = copies(alloc, files)?;
    let spec = spec_of(files, draft, rewritten);
    push(&mut machines.specs, spec)
}

fn pass(
    files: &[Name],
    draft: Draft,
    limit: Limit,
    machines: &mut Machines,
) -> Result<(), ResolveFault>
    requires { first_limit [] (meanings draft) ≡ Some limit }
    ensures { MatchResult result (λ _. IsNext files.now draft machines.old machines.new) (λ e. e ≡ refusal.Memory) }
{
    let _ = files;
    let Draft {
        machine,
        alphabet: _,
        definitions: _,
        actions: _,
        frame: _,
        writes: _,
    } = draft;
    push(&mut machines.passed, Passed { machine, limit })
}

/// One machine more.
fn add(
    alloc: Global,
    files: &[Name],
    draft: Draft,
    machines: &mut Machines,
) -> Result<(), ResolveFault>
    ensures { MatchResult result (λ _. IsNext files.now draft machines.old machines.new) (λ e. e ≡ refusal.Memory) }
{
    match rewrite(alloc, &draft) {
        Ok(rewritten) => keep(alloc, files, draft, rewritten, machines),
        Err(RewriteFault::Limit(limit)) => pass(files, draft, limit, machines),
        Err(RewriteFault::Memory) => Err(ResolveFault::Memory),
    }
}

/// All machines, the last first.
fn from_end(alloc: Global, files: &[Name], drafts: List<Draft>) -> Result<Machines, ResolveFault>
    ensures { MatchResult result (λ m. AreBehind files.now [] drafts m) (λ e. e ≡ refusal.Memory) }
{
    let mut drafts = drafts;
    let mut machines = Machines {
        specs: List::new(alloc),
        passed: List::new(alloc),
    };
    while let Some(draft) = drafts.pop() {
        add(alloc, files, draft, &mut machines)?;
    }
    Ok(machines)
}

/// All machines in their order.
#[tactic(auto, using(crate::proofs::MachineLaws::all_in_order))]
pub fn machines_of(
    alloc: Global,
    files: &[Name],
    drafts: List<Draft>,
) -> Result<Machines, ResolveFault>
    ensures { MatchResult result (λ m. AreAll files.now drafts m) (λ e. e ≡ refusal.Memory) }
{
    let Machines { specs, passed } = from_end(alloc, files, drafts)?;
    let specs = reversed(alloc, specs)?;
    let passed = reversed(alloc, passed)?;
    Ok(Machines { specs, passed })
}
