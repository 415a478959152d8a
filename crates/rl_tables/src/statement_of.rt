//! Control statements of actions.
ghost use Rattle.std.specs.Prelude.{◌≡◌, ◌<◌, ◌≤◌, ◌^◌, ◌+◌, ◌-◌, ℕ, pos, IsTrue, IfSome, length, slice_get, unwrap_or, option_and_then};
ghost use Rattle.rl_arrays.specs.Statements as says;
ghost use Rattle.rl_arrays.specs.Words.{natural, number_at};
ghost use Rattle.rl_arrays.specs.Valid.{Valid};
ghost use Rattle.rl_tables.specs.Steps.{IsEntryNumber, IsId};

use crate::look_ups::count_at;
use rl_arrays::Arrays;
use rl_run::{GoalBase, Statement, StatementKind};
use rl_types::EntryId;

/// The kind with this number.
pub(crate) fn kind_of(number: &i64) -> Option<StatementKind>
    ensures { result ≡ says.kind_of number.now }
{
    match *number {
        1 => Some(StatementKind::Hold),
        2 => Some(StatementKind::Exec),
        3 => Some(StatementKind::Goto),
        4 => Some(StatementKind::Call),
        5 => Some(StatementKind::Ret),
        6 => Some(StatementKind::Next),
        7 => Some(StatementKind::Break),
        _ => None,
    }
}

/// What a goal with this number counts from.
fn base_of(number: &i64) -> GoalBase
    ensures { result ≡ says.base_of number.now }
{
    match *number {
        1 => GoalBase::P,
        2 => GoalBase::Ts,
        3 => GoalBase::Te,
        _ => GoalBase::Unread,
    }
}

/// Whether a statement of this kind names an entry.
fn names_entry(kind: StatementKind) -> bool
    ensures { result ≡ says.names_entry kind }
{
    match kind {
        StatementKind::Goto | StatementKind::Call | StatementKind::Next => true,
        StatementKind::Hold | StatementKind::Exec | StatementKind::Ret | StatementKind::Break =>
            false,
    }
}

/// The statement of a kind, with the outer mark, the argument and the base that stand at its place.
fn statement_of(mark: &i64, argument: &i64, base: &i64, kind: StatementKind) -> Statement
    requires { IsTrue (says.names_entry kind) → IsId argument.now }
    ensures { result ≡ says.statement_of mark.now argument.now base.now kind }
{
    let outer = *mark == 1;
    if names_entry(kind) {
        return Statement {
            kind,
            outer,
            entry: Some(EntryId(*argument as u32)),
            base: GoalBase::Unread,
            offset: 0,
        };
    }
    match kind {
        StatementKind::Exec => Statement {
            kind,
            outer,
            entry: None,
            base: base_of(base),
            offset: *argument,
        },
        _ => Statement {
            kind,
            outer,
            entry: None,
            base: GoalBase::Unread,
            offset: 0,
        },
    }
}

/// The element at an index, 0 where it is missing.
fn element_at(xs: &[i64], i: usize) -> &i64
    ensures { result.now ≡ unwrap_or (slice_get xs.now i) (pos 0) }
{
    match xs.get(i) {
        Some(x) => x,
        None => &0,
    }
}

/// The kind of the statement at a place.
fn kind_at(a: &Arrays, place: usize) -> Option<StatementKind>
    ensures { result ≡ option_and_then says.kind_of (slice_get a.now.stmt_kinds place) }
{
    match a.stmt_kinds.get(place) {
        Some(number) => kind_of(number),
        None => None,
    }
}

/// The statement at a place.
fn statement_at(a: &Arrays, place: usize) -> Option<Statement>
    requires { Valid a.now }
    ensures value { result ≡ says.statement_at a.now place }
    ensures named { IfSome result (λ s. IfSome s.entry (λ e. IsEntryNumber a.now e.0)) }
{
    match kind_at(a, place) {
        Some(kind) => {
            let mark = element_at(a.stmt_outer.as_slice(), place);
            let argument = element_at(a.stmt_args.as_slice(), place);
            let base = element_at(a.stmt_bases.as_slice(), place);
            Some(statement_of(mark, argument, base, kind))
        }
        None => None,
    }
}

/// The statement of an action with this number, from 1.
pub(crate) fn statement(a: &Arrays, action: usize, number: usize) -> Option<Statement>
    requires valid { Valid a.now }
    requires small { number < 2 ^ 32 }
    ensures value { result ≡ says.statement a.now action number }
    ensures named { IfSome result (λ s. IfSome s.entry (λ e. IsEntryNumber a.now e.0)) }
{
    if number < 1 || number > count_at(a.stmt_counts.as_slice(), action) {
        return None;
    }
    let first = count_at(a.stmt_firsts.as_slice(), action);
    statement_at(a, first + (number - 1))
}
