//! The arrays of statements.
ghost use Rattle.std.specs.Prelude.{◌≡◌, ◌∷◌, ◌++◌, [], pos, map, length, IfOk};
ghost use Rattle.std.specs.List.{flat_map};
ghost use Rattle.std.specs.Option.{option_copied};
ghost use Rattle.rl_model.specs.Specification.{numbered};
ghost use Rattle.rl_layout.specs.SpecArrays.{statements_of, kind_number, base_number, argument_of, element_of};

use crate::cells::number;
use crate::lists::push;
use rl_model::{ActionDef, GoalBase, Statement, StatementKind};
use rl_types::{List, Memory};
use std::alloc::Global;

/// Which array of statements.
#[derive(Clone, Copy, Debug)]
pub(crate) enum StatementArray {
    Kind,
    Outer,
    Argument,
    Base,
}

/// The action of this number, from 1.
pub(crate) fn action_of(actions: &[ActionDef], action: u32) -> Option<&ActionDef>
    ensures { option_copied result ≡ numbered actions.now action }
{
    if action == 0 {
        return None;
    }
    actions.get(action as usize - 1)
}

// The statements of the action of this number.
fn statements_of(actions: &[ActionDef], action: u32) -> &[Statement]
    ensures { result.now ≡ statements_of actions.now action }
{
    match action_of(actions, action) {
        Some(a) => a.statements.as_slice(),
        None => &[],
    }
}

fn kind_number(kind: StatementKind) -> i64
    ensures { result ≡ kind_number kind }
{
    match kind {
        StatementKind::Hold => 1,
        StatementKind::Exec => 2,
        StatementKind::Goto => 3,
        StatementKind::Call => 4,
        StatementKind::Ret => 5,
        StatementKind::Next => 6,
        StatementKind::Break => 7,
    }
}

fn base_number(base: GoalBase) -> i64
    ensures { result ≡ base_number base }
{
    match base {
        GoalBase::Unread => 0,
        GoalBase::P => 1,
        GoalBase::Ts => 2,
        GoalBase::Te => 3,
    }
}

// The entry's number, or the offset of an exec.
fn argument_of(statement: &Statement) -> i64
    ensures { result ≡ argument_of statement.now }
{
    match statement.entry {
        Some(entry) => i64::from(entry.0),
        None => statement.offset,
    }
}

// What an array has for a statement.
fn element_of(which: StatementArray, statement: &Statement) -> i64
    ensures { result ≡ element_of which statement.now }
{
    match which {
        StatementArray::Kind => kind_number(statement.kind),
        StatementArray::Outer => { if statement.outer { 1 } else { 0 } }
        StatementArray::Argument => argument_of(statement),
        StatementArray::Base => base_number(statement.base),
    }
}

// Puts what an array has for statements at the end.
fn push_elements(
    elements: &mut Vec<i64>,
    which: StatementArray,
    statements: &[Statement],
) -> Result<(), Memory>
    ensures { IfOk result (λ _. elements.new.items ≡ elements.old.items ++ map (element_of which) statements.now) }
{
    for statement in statements {
        push(elements, element_of(which, statement))?;
    }
    Ok(())
}

/// An array of statements: element 0, and then those of the statements of actions in an order.
pub(crate) fn by_statement(
    alloc: Global,
    which: StatementArray,
    actions: &[ActionDef],
    order: &[u32],
) -> Result<List<i64>, Memory>
    ensures { IfOk result (λ v. v ≡ pos 0 ∷ flat_map (λ a. map (element_of which) (statements_of actions.now a)) order.now) }
{
    let mut elements = Vec::new(alloc);
    push(&mut elements, 0)?;
    for action in order {
        push_elements(&mut elements, which, statements_of(actions, *action))?;
    }
    Ok(List::from_vec(elements))
}

/// How many statements the actions in an order have.
pub(crate) fn statement_counts(
    alloc: Global,
    actions: &[ActionDef],
    order: &[u32],
) -> Result<Vec<usize>, Memory>
    ensures { IfOk result (λ v. v.items ≡ map (λ a. length (statements_of actions.now a)) order.now) }
{
    let mut counts = Vec::new(alloc);
    for action in order {
        push(&mut counts, statements_of(actions, *action).len())?;
    }
    Ok(counts)
}

/// Element 0, and then these counts.
pub(crate) fn behind_zero(alloc: Global, counts: &[usize]) -> Result<List<i64>, Memory>
    ensures { IfOk result (λ v. v ≡ pos 0 ∷ map pos counts.now) }
{
    let mut elements = Vec::new(alloc);
    push(&mut elements, 0)?;
    for count in counts {
        push(&mut elements, number(*count)?)?;
    }
    Ok(List::from_vec(elements))
}
