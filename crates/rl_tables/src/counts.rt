//! How many statements the actions have.
ghost use Rattle.std.specs.Prelude.{◌≡◌, ◌<◌, ◌≤◌, ◌+◌, ◌^◌, ◌↔◌, ℕ, ◌==◌, IsTrue, Some, None, false, pos, length, slice_get, take, drop, map, if◌then◌else◌};
ghost use Rattle.std.specs.List.{list_any};
ghost use Rattle.std.specs.Option.{option_map_or};
ghost use Rattle.std.specs.Ordering.{int_eq};
ghost use Rattle.rl_arrays.specs.Words.{natural, number_at};
ghost use Rattle.rl_arrays.specs.Lists.{members};
ghost use Rattle.rl_arrays.specs.Statements.{outer_kinds, up_to_end};
ghost use Rattle.rl_arrays.specs.Statements as Form;
ghost use Rattle.rl_arrays.specs.Sizes.{states, cells_end, IsEntryOf};
ghost use Rattle.rl_arrays.specs.Rules.{HasKind, IsListed, CountSays};
ghost use Rattle.rl_arrays.specs.Valid.{FirstWrong, SoundBefore};
ghost use Rattle.rl_tables.specs.Ends.{IsInside};
ghost use Rattle.rl_tables.specs.Moves.{MayMove, NotInCell, NotInState};

use crate::numbers::{count_of, has_kind};
use crate::statement_of::kind_of;
use crate::walk::{cell_at, entries_within, use_range};
use rl_arrays::{ArrayName, Arrays};
use rl_run::StatementKind;

/// So many elements from a place on, as far as they are there.
fn part(xs: &[i64], first: usize, count: usize) -> &[i64]
    ensures { result.now ≡ take count (drop first xs.now) }
{
    let rest = &xs[first.min(xs.len())..];
    &rest[..count.min(rest.len())]
}

/// Whether an action is among numbers of actions.
fn is_among(numbers: &[i64], k: usize) -> bool
    ensures { result ≡ list_any (λ number. natural number == k) numbers.now }
{
    numbers.iter().any(|number| count_of(*number) == k)
}

/// The members of the list that begins at a place.
fn members_of(a: &Arrays, place: usize) -> &[i64]
    ensures { map natural result.now ≡ members a.now.actions place }
{
    match a.actions.get(place) {
        Some(count) => part(a.actions.as_slice(), place + 1, count_of(*count)),
        None => &[],
    }
}

/// The number at an index.
fn number_in(numbers: &[i64], i: usize) -> Option<i64>
    ensures { result ≡ slice_get numbers.now i }
{
    match numbers.get(i) {
        Some(number) => Some(*number),
        None => None,
    }
}

/// Whether an action stands in the list of an element.
fn is_listed(a: &Arrays, numbers: &[i64], i: usize, k: usize) -> bool
    ensures { IsTrue result ↔ IsListed a.now numbers.now i k }
{
    match number_in(numbers, i) {
        Some(number) => is_among(members_of(a, count_of(number)), k),
        None => false,
    }
}

/// Whether an action stands in none of the lists.
fn is_in_none(a: &Arrays, numbers: &[i64], k: usize) -> bool
    ensures { IsTrue result ↔ ((i : ℕ) → IsListed a.now numbers.now i k → ⊥) }
{
    for i in 0..numbers.len() {
        if is_listed(a, numbers, i, k) {
            return false;
        }
    }
    true
}

/// Whether an action stands in no list of a cell's entries.
fn is_in_no_entry(a: &Arrays, cell: usize, k: usize) -> bool
    requires sound { SoundBefore a.now 9 }
    requires inside { IsInside (cells_end a.now) cell }
    ensures { IsTrue result ↔ NotInCell a.now k cell }
{
    let (from, to) = entries_within(a, cell, a.trans_lists.len());
    for e in from..to {
        if is_listed(a, a.trans_lists.as_slice(), e, k) {
            return false;
        }
    }
    true
}

/// Whether an action stands in no list of the entries of the cells that a state uses.
fn is_in_no_step(a: &Arrays, s: usize, k: usize) -> bool
    requires sound { SoundBefore a.now 9 }
    requires state { s < states a.now }
    requires few { s + 1 < 2 ^ 64 }
    ensures { IsTrue result ↔ NotInState a.now k s }
{
    let (from, to) = use_range(a, s);
    for place in from..to {
        if !is_in_no_entry(a, cell_at(a, place), k) {
            return false;
        }
    }
    true
}

/// Whether a state is not one from which a scanner steps, or an action stands in no list of its steps.
fn is_quiet(a: &Arrays, s: usize, k: usize) -> bool
    requires sound { SoundBefore a.now 9 }
    requires state { s < states a.now }
    requires few { s + 1 < 2 ^ 64 }
    ensures { IsTrue result ↔ (HasKind a.now s 1 3 → NotInState a.now k s) }
{
    if has_kind(a, s, 1, 3) {
        is_in_no_step(a, s, k)
    } else {
        true
    }
}

/// Whether an action stands in no list of a step inside a scanner.
fn is_in_no_scan(a: &Arrays, k: usize) -> bool
    requires { SoundBefore a.now 9 }
    ensures { IsTrue result ↔ ((s e : ℕ) → IsEntryOf a.now s e → HasKind a.now s 1 3 → IsListed a.now a.now.trans_lists e k → ⊥) }
{
    for s in 0..a.key_offsets.len() {
        if !is_quiet(a, s, k) {
            return false;
        }
    }
    true
}

/// Whether a statement of this kind is a transfer or a break.
fn ends_list(kind: StatementKind) -> bool
    ensures { result ≡ Form.ends_list kind }
{
    matches!(
        kind,
        StatementKind::Goto | StatementKind::Call | StatementKind::Ret | StatementKind::Break
    )
}

/// Whether a statement with a kind of this number ends its list.
fn is_end(kind: &i64) -> bool
    ensures { result ≡ option_map_or Form.ends_list (Form.kind_of kind.now) false }
{
    match kind_of(kind) {
        Some(kind) => ends_list(kind),
        None => false,
    }
}

/// The number of the kind of a statement at the outer level.
fn outer_kind(kind: i64, mark: i64) -> Option<i64>
    ensures { result ≡ (if int_eq mark (pos 1) then Some kind else None) }
{
    if mark == 1 { Some(kind) } else { None }
}

/// How many statements there are at the outer level, whatever their kinds, up to the first transfer or break.
fn outer_statements(kinds: &[i64], marks: &[i64]) -> usize
    ensures { result ≡ length (up_to_end (outer_kinds kinds.now marks.now)) }
{
    let mut count: usize = 0;
    for i in 0..kinds.len().min(marks.len()) {
        let Some(kind) = outer_kind(kinds[i], marks[i]) else {
            continue;
        };
        count += 1;
        if is_end(&kind) {
            return count;
        }
    }
    count
}

/// The place of an action's first statement, 0 where it is missing.
fn first_of(a: &Arrays, k: usize) -> usize
    ensures { result ≡ number_at a.now.stmt_firsts k }
{
    match a.stmt_firsts.get(k) {
        Some(first) => count_of(*first),
        None => 0,
    }
}

/// Whether an action has few statements at the outer level.
fn has_few(a: &Arrays, k: usize, count: i64) -> bool
    ensures { IsTrue result ↔ (let first = number_at a.now.stmt_firsts k in length (up_to_end (outer_kinds (take (natural count) (drop first a.now.stmt_kinds)) (take (natural count) (drop first a.now.stmt_outer)))) ≤ 4) }
{
    let first = first_of(a, k);
    let kinds = part(a.stmt_kinds.as_slice(), first, count_of(count));
    let marks = part(a.stmt_outer.as_slice(), first, count_of(count));
    outer_statements(kinds, marks) <= 4
}

/// Whether an action may have statements.
fn may_move(a: &Arrays, k: usize) -> bool
    requires { SoundBefore a.now 9 }
    ensures { IsTrue result ↔ MayMove a.now k }
{
    if !is_in_none(a, a.from_lists.as_slice(), k) {
        return false;
    }
    if !is_in_none(a, a.to_lists.as_slice(), k) {
        return false;
    }
    is_in_no_scan(a, k)
}

fn is_count(a: &Arrays, k: usize, count: i64) -> bool
    requires { SoundBefore a.now 9 }
    ensures { IsTrue result ↔ CountSays a.now k count }
{
    if count < 0 || !has_few(a, k, count) {
        return false;
    }
    if count == 0 {
        return true;
    }
    if k == 0 {
        return false;
    }
    may_move(a, k)
}

/// The first wrong number of an action's statements. For an action with statements, all lists that move nothing are
/// looked at.
pub(crate) fn in_stmt_counts(a: &Arrays) -> Option<usize>
    requires { SoundBefore a.now 20 }
    ensures { FirstWrong a.now ArrayName.StmtCounts result }
{
    let actions = a.action_names.len();
    for (k, count) in a.stmt_counts.as_slice().iter().enumerate() {
        if k >= actions || !is_count(a, k, *count) {
            return Some(k);
        }
    }
    if a.stmt_counts.len() < actions {
        Some(a.stmt_counts.len())
    } else {
        None
    }
}
