//! Tables of version 2.
ghost use Rattle.std.specs.Prelude.{◌≡◌, IfOk};
ghost use Rattle.rl_arrays.specs.Shared.{upgraded};
ghost use Rattle.rl_arrays.specs.Valid.{Valid};
ghost use Rattle.rl_upgrade.specs.Shows.{ShowsSame};
ghost use Rattle.rl_upgrade.specs.Copies.{gathered};

use crate::cells::cells_used;
use crate::copies::{
    Actions, Keys, Names, States, copy_actions, copy_all_names, copy_keys, copy_states,
};
use crate::shares::{Stored, stored_cells};
use rl_tables::{Arrays, Tables};
use rl_types::Memory;
use std::alloc::Global;

// The arrays that stay, and those of the cells that are stored.
fn gather(
    a: &Arrays,
    keys: Keys,
    states: States,
    actions: Actions,
    names: Names,
    cells: Stored,
) -> Arrays
    ensures { result ≡ gathered a.now keys states actions names cells }
{
    Arrays {
        version: 2,
        name: names.machine,
        start: a.start,
        first_final: a.first_final,
        alphabet: a.alphabet,
        actions: keys.actions,
        key_offsets: keys.offsets,
        trans_keys: keys.keys,
        single_lengths: keys.singles,
        range_lengths: keys.ranges,
        cell_offsets: keys.cells,
        cell_uses: cells.uses,
        cell_asks: cells.asks,
        cell_entries: cells.entries,
        trans_targs: cells.targets,
        trans_lists: cells.lists,
        from_lists: states.from,
        to_lists: states.to,
        eof_lists: states.eof,
        error_lists: states.error,
        accept_lists: states.token,
        state_kinds: states.kinds,
        homes: states.homes,
        action_names: names.actions,
        stmt_firsts: actions.firsts,
        stmt_counts: actions.counts,
        stmt_kinds: actions.kinds,
        stmt_outer: actions.outer,
        stmt_args: actions.args,
        stmt_bases: actions.bases,
        cond_names: names.conditions,
        entry_names: names.entries,
        entry_states: names.states,
    }
}

// The arrays in version 2.
#[tactic(auto, using(crate::proofs::CopyLaws::gathered_is))]
fn upgrade_arrays(alloc: Global, a: &Arrays) -> Result<Arrays, Memory>
    requires { Valid a.now }
    ensures { IfOk result (λ b. b ≡ upgraded a.now) }
{
    let used = cells_used(alloc, a)?;
    let cells = stored_cells(alloc, &used)?;
    let keys = copy_keys(alloc, a)?;
    let states = copy_states(alloc, a)?;
    let actions = copy_actions(alloc, a)?;
    let names = copy_all_names(alloc, a)?;
    Ok(gather(a, keys, states, actions, names, cells))
}

/// These tables in version 2: keys whose cells ask the same conditions and lead alike, under the same numbers of states
/// and lists, share one cell; the cells that are used are numbered in the order of first use, and those that none uses
/// are left out (this profile). All other arrays are as they were, and so are the look-ups, for every state, key and
/// conditions that hold. Tables of version 2 are treated in the same way. An `Err` is want of memory.
pub fn upgrade(alloc: Global, tables: &Tables) -> Result<Tables, Memory>
    ensures arrays { IfOk result (λ t. t ≡ upgraded tables.now) }
    ensures valid { IfOk result Valid }
    ensures shows { IfOk result (ShowsSame tables.now) }
{
    let arrays = upgrade_arrays(alloc, tables.arrays())?;
    match Tables::new(arrays) {
        Ok(tables) => Ok(tables),
        Err(_) => unreachable!(),
    }
}
