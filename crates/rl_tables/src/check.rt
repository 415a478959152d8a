//! The check of arrays: their version, and then array by array in their order and index by index.
ghost use Rattle.std.specs.Prelude.{◌≡◌, ◌+◌, Some, MatchOption, MatchResult, slice_get};
ghost use Rattle.rl_arrays.specs.Valid.{IsVersioned, FirstWrong, SoundBefore, Valid, IsBad};

use crate::cells::{in_cell_asks, in_cell_entries, in_cell_uses};
use crate::counts::in_stmt_counts;
use crate::entries::in_entry_states;
use crate::keys::in_trans_keys;
use crate::lists::in_actions;
use crate::names::{in_action_names, in_cond_names, in_entry_names};
use crate::numbers::is_between;
use crate::offsets::{in_cell_offsets, in_key_offsets};
use crate::statements::{
    in_stmt_args, in_stmt_bases, in_stmt_firsts, in_stmt_kinds, in_stmt_outer,
};
use crate::states::{
    in_accept_lists, in_eof_lists, in_error_lists, in_from_lists, in_homes, in_range_lengths,
    in_single_lengths, in_state_kinds, in_to_lists,
};
use crate::targets::{in_trans_lists, in_trans_targs};
use rl_arrays::{ArrayName, Arrays, BadValue, ORDER};

/// Refuses a version that there is not.
fn check_version(a: &Arrays) -> Result<(), BadValue>
    ensures { MatchResult result (λ _. IsVersioned a.now) (IsBad a.now) }
{
    if is_between(1, 2, a.version) {
        Ok(())
    } else {
        Err(BadValue {
            array: ArrayName::EntryStates,
            index: 0,
        })
    }
}

/// Refuses the array where an index of it is wrong.
fn refuse(a: &Arrays, place: usize, array: ArrayName, wrong: Option<usize>) -> Result<(), BadValue>
    requires version { IsVersioned a.now }
    requires before { SoundBefore a.now place }
    requires named { slice_get ORDER place ≡ Some array }
    requires first { FirstWrong a.now array wrong }
    ensures { MatchResult result (λ _. SoundBefore a.now (place + 1)) (IsBad a.now) }
{
    match wrong {
        Some(index) => Err(BadValue {
            array,
            index: index as u64,
        }),
        None => Ok(()),
    }
}

/// The arrays of lists and of the states' keys.
fn check_keys(a: &Arrays) -> Result<(), BadValue>
    requires { IsVersioned a.now }
    ensures { MatchResult result (λ _. SoundBefore a.now 5) (IsBad a.now) }
{
    refuse(a, 0, ArrayName::Actions, in_actions(a))?;
    refuse(a, 1, ArrayName::KeyOffsets, in_key_offsets(a))?;
    refuse(a, 2, ArrayName::TransKeys, in_trans_keys(a))?;
    refuse(a, 3, ArrayName::SingleLengths, in_single_lengths(a))?;
    refuse(a, 4, ArrayName::RangeLengths, in_range_lengths(a))?;
    Ok(())
}

/// The arrays of cells and entries.
fn check_cells(a: &Arrays) -> Result<(), BadValue>
    requires version { IsVersioned a.now }
    requires sound { SoundBefore a.now 5 }
    ensures { MatchResult result (λ _. SoundBefore a.now 11) (IsBad a.now) }
{
    refuse(a, 5, ArrayName::CellOffsets, in_cell_offsets(a))?;
    refuse(a, 6, ArrayName::CellUses, in_cell_uses(a))?;
    refuse(a, 7, ArrayName::CellAsks, in_cell_asks(a))?;
    refuse(a, 8, ArrayName::CellEntries, in_cell_entries(a))?;
    refuse(a, 9, ArrayName::TransTargs, in_trans_targs(a))?;
    refuse(a, 10, ArrayName::TransLists, in_trans_lists(a))?;
    Ok(())
}

/// The lists, kinds and homes of the states.
fn check_states(a: &Arrays) -> Result<(), BadValue>
    requires version { IsVersioned a.now }
    requires sound { SoundBefore a.now 11 }
    ensures { MatchResult result (λ _. SoundBefore a.now 18) (IsBad a.now) }
{
    refuse(a, 11, ArrayName::FromLists, in_from_lists(a))?;
    refuse(a, 12, ArrayName::ToLists, in_to_lists(a))?;
    refuse(a, 13, ArrayName::EofLists, in_eof_lists(a))?;
    refuse(a, 14, ArrayName::ErrorLists, in_error_lists(a))?;
    refuse(a, 15, ArrayName::AcceptLists, in_accept_lists(a))?;
    refuse(a, 16, ArrayName::StateKinds, in_state_kinds(a))?;
    refuse(a, 17, ArrayName::Homes, in_homes(a))?;
    Ok(())
}

/// The actions and their statements.
fn check_actions(a: &Arrays) -> Result<(), BadValue>
    requires version { IsVersioned a.now }
    requires sound { SoundBefore a.now 18 }
    ensures { MatchResult result (λ _. SoundBefore a.now 25) (IsBad a.now) }
{
    refuse(a, 18, ArrayName::ActionNames, in_action_names(a))?;
    refuse(a, 19, ArrayName::StmtFirsts, in_stmt_firsts(a))?;
    refuse(a, 20, ArrayName::StmtCounts, in_stmt_counts(a))?;
    refuse(a, 21, ArrayName::StmtKinds, in_stmt_kinds(a))?;
    refuse(a, 22, ArrayName::StmtOuter, in_stmt_outer(a))?;
    refuse(a, 23, ArrayName::StmtArgs, in_stmt_args(a))?;
    refuse(a, 24, ArrayName::StmtBases, in_stmt_bases(a))?;
    Ok(())
}

/// The conditions, the entries and the lines before the arrays.
fn check_entries(a: &Arrays) -> Result<(), BadValue>
    requires version { IsVersioned a.now }
    requires sound { SoundBefore a.now 25 }
    ensures { MatchResult result (λ _. SoundBefore a.now 28) (IsBad a.now) }
{
    refuse(a, 25, ArrayName::CondNames, in_cond_names(a))?;
    refuse(a, 26, ArrayName::EntryNames, in_entry_names(a))?;
    refuse(a, 27, ArrayName::EntryStates, in_entry_states(a))?;
    Ok(())
}

/// Whether the arrays are valid, and the first element that is not right.
pub(crate) fn check(a: &Arrays) -> Result<(), BadValue>
    ensures { MatchResult result (λ _. Valid a.now) (IsBad a.now) }
{
    check_version(a)?;
    check_keys(a)?;
    check_cells(a)?;
    check_states(a)?;
    check_actions(a)?;
    check_entries(a)?;
    Ok(())
}
