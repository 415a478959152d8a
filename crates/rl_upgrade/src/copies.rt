//! Copies of the arrays that stay.
ghost use Rattle.std.specs.Prelude.{◌≡◌, IfOk};
ghost use Rattle.rl_upgrade.specs.Copies as Form;

use crate::lists::push;
use rl_tables::Arrays;
use rl_types::{List, Memory, Name};
use std::alloc::Global;

/// The arrays of lists and of the states' keys.
#[derive(Drop)]
pub(crate) struct Keys {
    pub actions: List<i64>,
    pub offsets: List<i64>,
    pub keys: List<i64>,
    pub singles: List<i64>,
    pub ranges: List<i64>,
    pub cells: List<i64>,
}

/// The arrays by state.
#[derive(Drop)]
pub(crate) struct States {
    pub from: List<i64>,
    pub to: List<i64>,
    pub eof: List<i64>,
    pub error: List<i64>,
    pub token: List<i64>,
    pub kinds: List<i64>,
    pub homes: List<i64>,
}

/// The arrays of statements.
#[derive(Drop)]
pub(crate) struct Actions {
    pub firsts: List<i64>,
    pub counts: List<i64>,
    pub kinds: List<i64>,
    pub outer: List<i64>,
    pub args: List<i64>,
    pub bases: List<i64>,
}

/// The names, and the states of the entries.
#[derive(Drop)]
pub(crate) struct Names {
    pub machine: Name,
    pub actions: List<Name>,
    pub conditions: List<Name>,
    pub entries: List<Name>,
    pub states: List<i64>,
}

// A copy of numbers.
fn copy(alloc: Global, numbers: &List<i64>) -> Result<List<i64>, Memory>
    ensures { IfOk result (λ v. v ≡ numbers.now) }
{
    match numbers.as_slice().to_vec(alloc) {
        Ok(items) => Ok(List::from_vec(items)),
        Err(_) => Err(Memory),
    }
}

// A copy of a name.
fn copy_name(alloc: Global, name: &Name) -> Result<Name, Memory>
    ensures { IfOk result (λ n. n ≡ name.now) }
{
    match name.bytes().to_vec(alloc) {
        Ok(bytes) => Ok(Name::new(bytes)),
        Err(_) => Err(Memory),
    }
}

// A copy of names.
fn copy_names(alloc: Global, names: &List<Name>) -> Result<List<Name>, Memory>
    ensures { IfOk result (λ v. v ≡ names.now) }
{
    let mut copies = Vec::new(alloc);
    for name in names.as_slice() {
        let copy = copy_name(alloc, name)?;
        push(&mut copies, copy)?;
    }
    Ok(List::from_vec(copies))
}

/// A copy of the arrays of lists and of the states' keys.
pub(crate) fn copy_keys(alloc: Global, a: &Arrays) -> Result<Keys, Memory>
    ensures { IfOk result (λ k. k ≡ Form.keys_of a.now) }
{
    let actions = copy(alloc, &a.actions)?;
    let offsets = copy(alloc, &a.key_offsets)?;
    let keys = copy(alloc, &a.trans_keys)?;
    let singles = copy(alloc, &a.single_lengths)?;
    let ranges = copy(alloc, &a.range_lengths)?;
    let cells = copy(alloc, &a.cell_offsets)?;
    Ok(Keys {
        actions,
        offsets,
        keys,
        singles,
        ranges,
        cells,
    })
}

/// A copy of the arrays by state.
pub(crate) fn copy_states(alloc: Global, a: &Arrays) -> Result<States, Memory>
    ensures { IfOk result (λ s. s ≡ Form.states_of a.now) }
{
    let from = copy(alloc, &a.from_lists)?;
    let to = copy(alloc, &a.to_lists)?;
    let eof = copy(alloc, &a.eof_lists)?;
    let error = copy(alloc, &a.error_lists)?;
    let token = copy(alloc, &a.accept_lists)?;
    let kinds = copy(alloc, &a.state_kinds)?;
    let homes = copy(alloc, &a.homes)?;
    Ok(States {
        from,
        to,
        eof,
        error,
        token,
        kinds,
        homes,
    })
}

/// A copy of the arrays of statements.
pub(crate) fn copy_actions(alloc: Global, a: &Arrays) -> Result<Actions, Memory>
    ensures { IfOk result (λ s. s ≡ Form.actions_of a.now) }
{
    let firsts = copy(alloc, &a.stmt_firsts)?;
    let counts = copy(alloc, &a.stmt_counts)?;
    let kinds = copy(alloc, &a.stmt_kinds)?;
    let outer = copy(alloc, &a.stmt_outer)?;
    let args = copy(alloc, &a.stmt_args)?;
    let bases = copy(alloc, &a.stmt_bases)?;
    Ok(Actions {
        firsts,
        counts,
        kinds,
        outer,
        args,
        bases,
    })
}

/// A copy of the names, and of the states of the entries.
pub(crate) fn copy_all_names(alloc: Global, a: &Arrays) -> Result<Names, Memory>
    ensures { IfOk result (λ n. n ≡ Form.names_of a.now) }
{
    let machine = copy_name(alloc, &a.name)?;
    let actions = copy_names(alloc, &a.action_names)?;
    let conditions = copy_names(alloc, &a.cond_names)?;
    let entries = copy_names(alloc, &a.entry_names)?;
    let states = copy(alloc, &a.entry_states)?;
    Ok(Names {
        machine,
        actions,
        conditions,
        entries,
        states,
    })
}
