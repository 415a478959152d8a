// What a source says.
ghost use Rattle.std.specs.Prelude.{◌≡◌, All, IfOk, IfErr, MatchResult};
ghost use Rattle.rl_io.specs.Outside.{Rose};
ghost use Rattle.rl_resolve.specs.Answers.{Resolves, IsRefusal, IsDueRefusal, IsFormed, HasRunning, HasCount, IsWithin, Settles};
ghost use Rattle.rl_resolve.specs.Refusals.{Explains};
ghost use Rattle.rl_resolve.specs.Resolving as resolving;

use crate::answer::{ResolveFault, Runs};
use crate::drafted::drafted;
use crate::limits::check_limits;
use crate::looks::check_forms;
use crate::machines::{Machines, machines_of};
use rl_draft::Draft;
use rl_grammar::syntax::Syntax;
use rl_includes::{Unrolled, unroll};
use rl_io::Store;
use rl_model::Spec;
use rl_types::{List, Name};
use std::alloc::Global;

/// The Specs of drafts.
#[tactic(auto, using(crate::proofs::AnswerLaws::within_all, crate::proofs::AnswerLaws::within_refused))]
fn within(
    alloc: Global,
    unrolled: &Unrolled,
    drafts: List<Draft>,
) -> Result<List<Spec>, ResolveFault>
    ensures { MatchResult result (IsWithin unrolled.now drafts) (Explains (resolving.within unrolled.now drafts)) }
{
    let files = unrolled.files.as_slice();
    let Machines { specs, passed } = machines_of(alloc, files, drafts)?;
    check_limits(alloc, files, unrolled.steps.as_slice(), passed.as_slice())?;
    Ok(specs)
}

/// The Specs of a source whose includes are read.
#[tactic(auto, using(crate::proofs::AnswerLaws::accepted_within, crate::proofs::RefusalLaws::explains_first, crate::proofs::RefusalLaws::explains_next))]
fn settled(alloc: Global, unrolled: &Unrolled, which: Runs<'_>) -> Result<List<Spec>, ResolveFault>
    ensures { Settles which.entry unrolled.now result }
{
    let drafts = drafted(alloc, unrolled, which)?;
    within(alloc, unrolled, drafts)
}

/// The same, and whether they are well-formed is looked at again. The machine that runs is among them.
#[tactic(auto, using(crate::proofs::RunningLaws::accepted_running))]
fn answered(alloc: Global, unrolled: &Unrolled, which: Runs<'_>) -> Result<List<Spec>, ResolveFault>
    ensures settles { Settles which.entry unrolled.now result }
    ensures formed { IfOk result (All IsFormed) }
    ensures running { IfOk result (HasRunning which.entry) }
{
    let specs = settled(alloc, unrolled, which)?;
    check_forms(alloc, specs.as_slice())?;
    Ok(specs)
}

/// The Specs of a source, one for each machine that a `machine` statement (the guide's section 2.1.1) of the source itself
/// names, in order of first mention. The source is given as the syntax trees of its blocks, with the name of its file, of
/// which the names of included files are looked up. `runs` says which machine the command line runs. The files of a Spec are
/// those that were read, by their numbers; all Specs have the same.
///
/// A refusal is the first one in this order, which is this profile's; within one step the first in text order comes:
///
/// - names: F5 where an expression or an action is not defined earlier, F6 where a name is defined twice or `write data`
///   stands twice for a machine, L9 at the first name of a machine behind 65,535 others; in the code of actions F13 at a
///   word that this profile leaves out or that has not its form, and L10 at an action's fifth control statement at the
///   outer level; F13 at a condition, to-state or from-state embedding of an action with control statements, and at a
///   pattern of a scanner that embeds such an action; F14 at an end-of-file or error embedding in a pattern;
/// - what ends the reading of includes: F4 where a statement stands before any `machine`, or an `include` names a machine
///   that is absent; F17; L2; `Missing`; `StoreFailed`; and what an included file itself has, as its syntax;
/// - F4 at 1:1 where the source has no machine, or not the one that is to run;
/// - F8 and F9 at keys and ranges, and F16 at a word of code that names no entry of the machine;
/// - F18 at the first `write` of a machine without an instantiation; else at 1:1 where the machine that runs has none;
/// - L4, L5 and L7 at the name of an entry.
///
/// A pattern has what the names in it bring. That a pattern matches the empty word (F12) is told where its machine is built.
///
/// The statements of an action are what its code says, in text order; an entry that a statement names is given by its
/// number among the machine's entries, from 1.
///
/// The store holds what it held. Its count of faults rises only where it failed, and `StoreFailed` comes only then.
/// `Memory` may come at any time.
pub fn resolve<S: Store>(
    alloc: Global,
    blocks: List<Syntax>,
    file: &Name,
    runs: Runs<'_>,
    store: &mut S,
) -> Result<List<Spec>, ResolveFault>
    ensures resolved { IfOk result (Resolves (S.held store.old) file.now blocks runs.entry) }
    ensures refused { IfErr result (IsRefusal (S.held store.old) file.now blocks runs.entry) }
    // Where the store's count did not rise, no reading of the source ended in its failure.
    ensures due { (Rose (S.faults store.old) (S.faults store.new) → ⊥) → IfErr result (IsDueRefusal (S.held store.old) file.now blocks runs.entry) }
    ensures formed { IfOk result (All IsFormed) }
    ensures runs { IfOk result (HasRunning runs.entry) }
    ensures same { S.held store.new ≡ S.held store.old }
    ensures count { HasCount (S.faults store.old) (S.faults store.new) result }
{
    let Ok(unrolled) = unroll(alloc, blocks, file, store) else {
        return Err(ResolveFault::Memory);
    };
    answered(alloc, &unrolled, runs)
}
