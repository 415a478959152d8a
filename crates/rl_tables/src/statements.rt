//! The statements of the actions.
ghost use Rattle.std.specs.Prelude.{◌≡◌, ◌<◌, ◌↔◌, IsTrue, Some, IfSome, IsSomeAnd, pos, ◌+ℤ◌, ◌^◌, length, slice_get, option_and_then};
ghost use Rattle.rl_arrays.specs.Words.{sum_before, IfAt};
ghost use Rattle.rl_arrays.specs.Sizes.{statements_of, statements_end, one_more};
ghost use Rattle.rl_arrays.specs.Statements.{kind_of, names_entry};
ghost use Rattle.rl_arrays.specs.Rules.{FirstSays, StatementSays, MarkSays, ArgumentSays, BaseSays, IsEntry};
ghost use Rattle.rl_arrays.specs.Valid.{FirstWrong, Right};
ghost use Rattle.rl_tables.specs.Small.{IsUpTo};

use crate::numbers::{is_between, is_entry};
use crate::sums::{longer, number_at};
use rl_arrays::{ArrayName, Arrays};

/// Whether a first statement is the one behind the statements before.
fn is_next(place: Option<i128>, n: i64) -> bool
    ensures { IsTrue result ↔ IfSome place (λ sum. n ≡ sum +ℤ pos 1) }
{
    match place {
        Some(sum) => i128::from(n) - 1 == sum,
        None => true,
    }
}

/// Whether an action's first statement is right, where the sum of the numbers of statements before it is known.
fn is_first(a: &Arrays, k: usize, place: Option<i128>) -> bool
    requires { place ≡ sum_before (statements_of a.now) k }
    ensures { IsTrue result ↔ Right a.now ArrayName.StmtFirsts k }
{
    match a.stmt_firsts.get(k) {
        Some(n) => k < a.action_names.len() && (if k == 0 { *n == 0 } else { is_next(place, *n) }),
        None => false,
    }
}

/// The first wrong first statement.
pub(crate) fn in_stmt_firsts(a: &Arrays) -> Option<usize>
    ensures { FirstWrong a.now ArrayName.StmtFirsts result }
{
    let mut place: Option<i128> = Some(0);
    for k in 0..a.stmt_firsts.as_slice().len() {
        if !is_first(a, k, place) {
            return Some(k);
        }
        place = longer(place, number_at(a.stmt_counts.as_slice(), k), k);
    }
    if a.stmt_firsts.len() < a.action_names.len() {
        Some(a.stmt_firsts.len())
    } else {
        None
    }
}

/// How many statements all actions have.
fn statements_of_all(a: &Arrays) -> Option<i128>
    ensures value { result ≡ statements_end a.now }
    ensures small { IsUpTo (2 ^ 126) result }
{
    let mut place: Option<i128> = Some(0);
    for k in 0..a.stmt_counts.as_slice().len() {
        place = longer(place, number_at(a.stmt_counts.as_slice(), k), k);
    }
    place
}

/// Whether an index is below a sum and one more.
fn is_due(end: Option<i128>, i: usize, has: usize) -> bool
    requires { IsUpTo (2 ^ 126) end }
    ensures { IsTrue result ↔ (i < one_more end has) }
{
    match end {
        Some(sum) => i as i128 <= sum,
        None => i < has,
    }
}

fn is_statement(a: &Arrays, i: usize, kind: i64) -> bool
    ensures { IsTrue result ↔ StatementSays a.now i kind }
{
    let _ = a;
    if i == 0 {
        kind == 0
    } else {
        is_between(1, 7, kind)
    }
}

/// The first wrong kind of a statement.
pub(crate) fn in_stmt_kinds(a: &Arrays) -> Option<usize>
    ensures { FirstWrong a.now ArrayName.StmtKinds result }
{
    let has = a.stmt_kinds.len();
    let end = statements_of_all(a);
    for (i, kind) in a.stmt_kinds.as_slice().iter().enumerate() {
        if !is_due(end, i, has) || !is_statement(a, i, *kind) {
            return Some(i);
        }
    }
    if is_due(end, has, has) {
        Some(has)
    } else {
        None
    }
}

fn is_mark(a: &Arrays, i: usize, mark: i64) -> bool
    ensures { IsTrue result ↔ MarkSays a.now i mark }
{
    let _ = a;
    if i == 0 {
        mark == 0
    } else {
        is_between(0, 1, mark)
    }
}

/// Whether the statement names an entry.
fn names_an_entry(a: &Arrays, i: usize) -> bool
    ensures { IsTrue result ↔ IsSomeAnd (option_and_then kind_of (slice_get a.now.stmt_kinds i)) (λ kind. IsTrue (names_entry kind)) }
{
    match a.stmt_kinds.get(i) {
        Some(kind) => *kind == 3 || *kind == 4 || *kind == 6,
        None => false,
    }
}

fn is_argument(a: &Arrays, i: usize, argument: i64) -> bool
    ensures { IsTrue result ↔ ArgumentSays a.now i argument }
{
    if i == 0 && argument != 0 {
        return false;
    }
    if names_an_entry(a, i) {
        is_entry(a, argument)
    } else {
        true
    }
}

fn is_base(a: &Arrays, i: usize, base: i64) -> bool
    ensures { IsTrue result ↔ BaseSays a.now i base }
{
    let _ = a;
    if i == 0 {
        base == 0
    } else {
        is_between(0, 3, base)
    }
}

/// The first wrong mark of the outer level.
pub(crate) fn in_stmt_outer(a: &Arrays) -> Option<usize>
    ensures { FirstWrong a.now ArrayName.StmtOuter result }
{
    let statements = a.stmt_kinds.len();
    for (i, mark) in a.stmt_outer.as_slice().iter().enumerate() {
        if i >= statements || !is_mark(a, i, *mark) {
            return Some(i);
        }
    }
    if a.stmt_outer.len() < statements {
        Some(a.stmt_outer.len())
    } else {
        None
    }
}

/// Whether a statement's argument is there and right.
fn is_right_argument(a: &Arrays, i: usize) -> bool
    ensures { IsTrue result ↔ Right a.now ArrayName.StmtArgs i }
{
    match a.stmt_args.get(i) {
        Some(argument) => i < a.stmt_kinds.len() && is_argument(a, i, *argument),
        None => false,
    }
}

/// The first wrong argument of a statement.
pub(crate) fn in_stmt_args(a: &Arrays) -> Option<usize>
    ensures { FirstWrong a.now ArrayName.StmtArgs result }
{
    for i in 0..a.stmt_args.len() {
        if !is_right_argument(a, i) {
            return Some(i);
        }
    }
    if a.stmt_args.len() < a.stmt_kinds.len() {
        Some(a.stmt_args.len())
    } else {
        None
    }
}

/// The first wrong base of a goal.
pub(crate) fn in_stmt_bases(a: &Arrays) -> Option<usize>
    ensures { FirstWrong a.now ArrayName.StmtBases result }
{
    let statements = a.stmt_kinds.len();
    for (i, base) in a.stmt_bases.as_slice().iter().enumerate() {
        if i >= statements || !is_base(a, i, *base) {
            return Some(i);
        }
    }
    if a.stmt_bases.len() < statements {
        Some(a.stmt_bases.len())
    } else {
        None
    }
}
