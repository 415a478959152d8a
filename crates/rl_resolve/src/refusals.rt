// Refusals with the names of their files.
ghost use Rattle.std.specs.Prelude.{◌≡◌, Option, MatchResult};
ghost use Rattle.rl_grammar.specs.declared.read_fault.ReadFault.{ReadFault};
ghost use Rattle.rl_names.specs.Answers as names;
ghost use Rattle.rl_resolve.specs.Refusals as refusals;
ghost use Rattle.rl_resolve.specs.Refusals.{IsTold, Tells, file_name};
ghost use Rattle.rl_resolve.specs.declared.answer.ResolveFault.TheVariants as refusal;

use crate::answer::ResolveFault;
use crate::memory::copied;
use rl_grammar::ReadFault;
use rl_includes::Stop;
use rl_types::Name;
use sqlite_items::at;
use std::alloc::Global;

/// The name of the file of this number.
fn name_at(alloc: Global, files: &[Name], number: u64) -> Result<Name, ResolveFault>
    ensures { MatchResult result (λ name. name ≡ file_name files.now number) (λ e. e ≡ refusal.Memory) }
{
    match at(files, number as usize) {
        Some(name) => copied(alloc, name),
        None => Ok(Name::new(Vec::new(alloc))),
    }
}

/// A refusal with the name of the file of its place.
pub fn named(alloc: Global, files: &[Name], e: ReadFault) -> ResolveFault
    ensures { IsTold (refusals.named files.now e) result }
{
    match e {
        ReadFault::Fault(fault) => match name_at(alloc, files, fault.place.file) {
            Ok(name) => ResolveFault::Fault(fault, name),
            Err(_) => ResolveFault::Memory,
        },
        ReadFault::Limit(limit) => match name_at(alloc, files, limit.place.file) {
            Ok(name) => ResolveFault::Limit(limit, name),
            Err(_) => ResolveFault::Memory,
        },
        ReadFault::Memory => ResolveFault::Memory,
    }
}

/// What a test of a source answered.
#[tactic(auto, using(crate::proofs::RefusalLaws::told_none, crate::proofs::RefusalLaws::told_err))]
pub fn told(
    alloc: Global,
    files: &[Name],
    answer: Result<(), ReadFault>,
) -> Result<(), ResolveFault>
    ensures { (due : Option ReadFault) → names.Tells due answer → Tells (refusals.told files.now due) result }
{
    match answer {
        Ok(()) => Ok(()),
        Err(e) => Err(named(alloc, files, e)),
    }
}

/// A refusal that may be due.
#[tactic(auto, using(crate::proofs::RefusalLaws::told_some))]
pub fn refuse(alloc: Global, files: &[Name], due: Option<ReadFault>) -> Result<(), ResolveFault>
    ensures { Tells (refusals.told files.now due) result }
{
    match due {
        None => Ok(()),
        Some(e) => Err(named(alloc, files, e)),
    }
}

fn stopped_by(alloc: Global, stop: &Stop) -> ResolveFault
    ensures { IsTold (refusals.stopped_by stop.now) result }
{
    match stop {
        Stop::Fault(fault, name) => match copied(alloc, name) {
            Ok(name) => ResolveFault::Fault(*fault, name),
            Err(_) => ResolveFault::Memory,
        },
        Stop::Limit(limit, name) => match copied(alloc, name) {
            Ok(name) => ResolveFault::Limit(*limit, name),
            Err(_) => ResolveFault::Memory,
        },
        Stop::Missing(name) => match copied(alloc, name) {
            Ok(name) => ResolveFault::Missing(name),
            Err(_) => ResolveFault::Memory,
        },
        Stop::StoreFailed(name) => match copied(alloc, name) {
            Ok(name) => ResolveFault::StoreFailed(name),
            Err(_) => ResolveFault::Memory,
        },
    }
}

/// Why the statements end before the source does.
#[tactic(auto, using(crate::proofs::RefusalLaws::told_some))]
pub fn check_stop(alloc: Global, stop: &Option<Stop>) -> Result<(), ResolveFault>
    ensures { Tells (refusals.stopped stop.now) result }
{
    match stop {
        None => Ok(()),
        Some(stop) => Err(stopped_by(alloc, stop)),
    }
}
