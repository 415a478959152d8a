// The first limit in text order that an entry passes, of all machines.
ghost use Rattle.std.specs.Prelude.{◌≡◌, [], None, MatchResult};
ghost use Rattle.rl_names.specs.Answers.{first_of};
ghost use Rattle.rl_resolve.specs.Limits as limits;
ghost use Rattle.rl_resolve.specs.Refusals.{Told, told};

use crate::answer::ResolveFault;
use crate::instances::is_of;
use crate::refusals::refuse;
use rl_grammar::syntax::Statement;
use rl_grammar::{ReadFault, Step};
use rl_types::{Limit, Name, Place};
use std::alloc::Global;

/// The first limit that the entries of a machine pass.
#[derive(Drop)]
pub struct Passed {
    pub machine: Name,
    pub limit: Limit,
}

fn same_place(p: Place, q: Place) -> bool
    ensures { result ≡ limits.same_place p q }
{
    p.file == q.file && p.line == q.line && p.col == q.col
}

fn is_defined_at(place: Place, statement: &Statement) -> bool
    ensures { result ≡ limits.is_defined_at place statement.now }
{
    match statement {
        Statement::Definition(one) => same_place(one.name.place, place),
        Statement::Machine(_)
        | Statement::Include(_)
        | Statement::Alphtype(_)
        | Statement::Access(_)
        | Statement::Variable(_)
        | Statement::Write(_)
        | Statement::Action(_) => false,
    }
}

fn limit_at(step: &Step, one: &Passed) -> Option<Limit>
    ensures { result ≡ limits.limit_at step.now one.now }
{
    if is_of(one.machine.bytes(), step) && is_defined_at(one.limit.place, &step.statement) {
        Some(one.limit)
    } else {
        None
    }
}

fn first_at(step: &Step, all: &[Passed]) -> Option<Limit>
    ensures { result ≡ first_of (limits.limit_at step.now) all.now }
{
    for one in all {
        let limit = limit_at(step, one);
        if limit.is_some() {
            return limit;
        }
    }
    None
}

/// The first of some limits in text order.
fn first_in_text(steps: &[Step], all: &[Passed]) -> Option<Limit>
    ensures { result ≡ limits.first_in_text steps.now all.now }
{
    for step in steps {
        let limit = first_at(step, all);
        if limit.is_some() {
            return limit;
        }
    }
    None
}

fn limit_fault(steps: &[Step], all: &[Passed]) -> Option<ReadFault>
    ensures { result ≡ limits.limit_fault steps.now all.now }
{
    match first_in_text(steps, all) {
        None => None,
        Some(limit) => Some(ReadFault::Limit(limit)),
    }
}

/// Some limits may be passed: the first in text order is told. Each stands at a statement; where none does, want of memory
/// is told.
pub fn check_limits(
    alloc: Global,
    files: &[Name],
    steps: &[Step],
    all: &[Passed],
) -> Result<(), ResolveFault>
    ensures { MatchResult result (λ _. (limits.limit_fault steps.now all.now ≡ None) × (all.now ≡ [])) (Told (told files.now (limits.limit_fault steps.now all.now))) }
{
    refuse(alloc, files, limit_fault(steps, all))?;
    match all {
        [] => Ok(()),
        [_, ..] => Err(ResolveFault::Memory),
    }
}
