//! Where the entries of cells lead, and their lists. An entry may be of several states, and of one more than once, so each
//! state goes through the cells that it uses, and the least wrong entry is the first wrong one.
ghost use Rattle.std.specs.Prelude.{◌≡◌, ◌<◌, ◌≤◌, ◌+◌, ◌^◌, ◌↔◌, ℕ, IsTrue, Some, pos, length, slice_get};
ghost use Rattle.rl_arrays.specs.Words.{natural, IfAt, IsFirstWrong};
ghost use Rattle.rl_arrays.specs.Sizes.{states, cells_end, entries_end, IsClosing};
ghost use Rattle.rl_arrays.specs.Rules.{TargetOf, StepListSays};
ghost use Rattle.rl_arrays.specs.Valid.{FirstWrong, SoundBefore, span};
ghost use Rattle.rl_tables.specs.Ends.{IsInside};
ghost use Rattle.rl_tables.specs.Small.{IsUpTo};
ghost use Rattle.rl_tables.specs.TargetParts.{IsTarget, CellFits, StateFits, StatesFit};

use crate::cells::{entries_of_all, is_closing, is_due};
use crate::keys::lesser;
use crate::lists::is_list;
use crate::numbers::{count_of, has_kind, is_state, may_have_kind};
use crate::walk::{cell_at, entries_within, use_range};
use rl_arrays::{ArrayName, Arrays};

/// Whether the homes of a state and of its target, if they are there, are the same.
fn has_same_home(a: &Arrays, s: usize, target: i64) -> bool
    ensures { IsTrue result ↔ IfAt a.now.homes s (λ home. IfAt a.now.homes (natural target) (λ other. other ≡ home)) }
{
    let other = a.homes.get(count_of(target));
    match a.homes.get(s) {
        Some(home) => match other {
            Some(other) => *other == *home,
            None => true,
        },
        None => true,
    }
}

fn is_target_of(a: &Arrays, s: usize, target: i64) -> bool
    ensures { IsTrue result ↔ TargetOf a.now s target }
{
    let number = count_of(target);
    if has_kind(a, s, 0, 0) && !may_have_kind(a, number, 0, 0) {
        return false;
    }
    if target == 0 || !has_kind(a, s, 1, 3) {
        return true;
    }
    may_have_kind(a, number, 2, 4) && has_same_home(a, s, target)
}

/// Whether the target of an entry, if it is there, fits a state.
fn fits(a: &Arrays, s: usize, e: usize) -> bool
    ensures { IsTrue result ↔ IfAt a.now.trans_targs e (TargetOf a.now s) }
{
    match a.trans_targs.get(e) {
        Some(target) => is_target_of(a, s, *target),
        None => true,
    }
}

/// The first entry of a cell whose target does not fit a state.
fn wrong_in_cell(a: &Arrays, s: usize, cell: usize) -> Option<usize>
    requires sound { SoundBefore a.now 9 }
    requires inside { IsInside (cells_end a.now) cell }
    ensures { IsFirstWrong (length a.now.trans_targs) (CellFits a.now s cell) result }
{
    let (from, to) = entries_within(a, cell, a.trans_targs.len());
    for e in from..to {
        if !fits(a, s, e) {
            return Some(e);
        }
    }
    None
}

/// The first entry of the cells that a state uses whose target does not fit the state.
fn wrong_in_state(a: &Arrays, s: usize) -> Option<usize>
    requires sound { SoundBefore a.now 9 }
    requires state { s < states a.now }
    requires few { s + 1 < 2 ^ 64 }
    ensures { IsFirstWrong (length a.now.trans_targs) (StateFits a.now s) result }
{
    let (from, to) = use_range(a, s);
    let mut wrong: Option<usize> = None;
    for place in from..to {
        wrong = lesser(wrong, wrong_in_cell(a, s, cell_at(a, place)));
    }
    wrong
}

/// The first entry whose target does not fit a state that uses its cell.
fn wrong_fit(a: &Arrays) -> Option<usize>
    requires { SoundBefore a.now 9 }
    ensures { IsFirstWrong (length a.now.trans_targs) (StatesFit a.now (states a.now)) result }
{
    let mut wrong: Option<usize> = None;
    for s in 0..a.key_offsets.len() {
        wrong = lesser(wrong, wrong_in_state(a, s));
    }
    wrong
}

/// Whether a target is there and due, and that of a state, 0 where it is the closing one.
fn is_target(a: &Arrays, end: Option<i128>, e: usize) -> bool
    requires end_is { end ≡ entries_end a.now }
    requires small { IsUpTo (2 ^ 126) end }
    ensures { IsTrue result ↔ IsTarget a.now e }
{
    let has = a.trans_targs.len();
    match a.trans_targs.get(e) {
        Some(target) => is_due(end, e, has)
            && is_state(a, *target)
            && (*target == 0 || !is_closing(end, e)),
        None => false,
    }
}

/// The first target that is missing, not due, or no state's, or closes by another number than 0.
fn wrong_alone(a: &Arrays) -> Option<usize>
    ensures { IsFirstWrong (span a.now ArrayName.TransTargs) (IsTarget a.now) result }
{
    let has = a.trans_targs.len();
    let end = entries_of_all(a);
    for e in 0..has {
        if !is_target(a, end, e) {
            return Some(e);
        }
    }
    if is_due(end, has, has) {
        Some(has)
    } else {
        None
    }
}

/// The first wrong target.
pub(crate) fn in_trans_targs(a: &Arrays) -> Option<usize>
    requires { SoundBefore a.now 9 }
    ensures { FirstWrong a.now ArrayName.TransTargs result }
{
    lesser(wrong_fit(a), wrong_alone(a))
}

/// Whether an entry leads nowhere.
fn stays(a: &Arrays, e: usize) -> bool
    ensures { IsTrue result ↔ (slice_get a.now.trans_targs e ≡ Some (pos 0)) }
{
    match a.trans_targs.get(e) {
        Some(target) => *target == 0,
        None => false,
    }
}

fn is_step_list(a: &Arrays, end: Option<i128>, e: usize, number: i64) -> bool
    requires { end ≡ entries_end a.now }
    ensures { IsTrue result ↔ StepListSays a.now e number }
{
    if number != 0 && (is_closing(end, e) || stays(a, e)) {
        return false;
    }
    is_list(a, number)
}

/// The first wrong list of a step.
pub(crate) fn in_trans_lists(a: &Arrays) -> Option<usize>
    requires { SoundBefore a.now 10 }
    ensures { FirstWrong a.now ArrayName.TransLists result }
{
    let entries = a.trans_targs.len();
    let end = entries_of_all(a);
    for (e, number) in a.trans_lists.as_slice().iter().enumerate() {
        if e >= entries || !is_step_list(a, end, e, *number) {
            return Some(e);
        }
    }
    if a.trans_lists.len() < entries {
        Some(a.trans_lists.len())
    } else {
        None
    }
}
