// The drafts of a source, or the first refusal up to them.
ghost use Rattle.std.specs.Prelude.{◌≡◌, MatchResult};
ghost use Rattle.rl_names.specs.Drafts.{drafts_of};
ghost use Rattle.rl_names.specs.Frames.{machines_of};
ghost use Rattle.rl_resolve.specs.Refusals.{Gives, read_in};
ghost use Rattle.rl_resolve.specs.Resolving as resolving;
ghost use Rattle.rl_resolve.specs.declared.answer.ResolveFault.TheVariants as refusal;

use crate::answer::{ResolveFault, Runs};
use crate::instances::{instance_fault, machine_fault};
use crate::refusals::{check_stop, named, refuse, told};
use rl_draft::Draft;
use rl_grammar::Step;
use rl_includes::Unrolled;
use rl_names::{check_leaves, check_names, drafts, machine_names};
use rl_types::{List, Name};
use std::alloc::Global;

fn machines(alloc: Global, steps: &[Step]) -> Result<List<Name>, ResolveFault>
    ensures { MatchResult result (λ names. names ≡ machines_of steps.now) (λ e. e ≡ refusal.Memory) }
{
    match machine_names(alloc, steps) {
        Ok(names) => Ok(names),
        Err(_) => Err(ResolveFault::Memory),
    }
}

#[tactic(auto, using(crate::proofs::RefusalLaws::explains_in))]
fn read(alloc: Global, files: &[Name], steps: &[Step]) -> Result<List<Draft>, ResolveFault>
    ensures { Gives (read_in files.now (drafts_of steps.now)) result }
{
    match drafts(alloc, steps) {
        Ok(found) => Ok(found),
        Err(e) => Err(named(alloc, files, e)),
    }
}

/// The drafts of a source's machines.
#[tactic(auto, using(crate::proofs::RefusalLaws::told_refused, crate::proofs::RefusalLaws::explains_behind))]
pub fn drafted(
    alloc: Global,
    unrolled: &Unrolled,
    which: Runs<'_>,
) -> Result<List<Draft>, ResolveFault>
    ensures { Gives (resolving.drafted which.entry unrolled.now) result }
{
    let files = unrolled.files.as_slice();
    let steps = unrolled.steps.as_slice();
    let names = machines(alloc, steps)?;
    told(alloc, files, check_names(alloc, steps))?;
    check_stop(alloc, &unrolled.stop)?;
    refuse(alloc, files, machine_fault(which, names.as_slice()))?;
    told(alloc, files, check_leaves(alloc, steps))?;
    let without_instance = instance_fault(alloc, which, steps, names.as_slice())?;
    refuse(alloc, files, without_instance)?;
    read(alloc, files, steps)
}
