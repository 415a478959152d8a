//! A section put together from what its lines say.
ghost use Rattle.std.specs.Prelude.{◌≡◌, [], IfOk, OnOk};
ghost use Rattle.rl_cread.specs.Gathering.{version_of, empty, with_number, with_numbers, with_names, put, filled};

use crate::raw::Raw;
use crate::said::{Label, Said};
use rl_arrays::{ArrayName, Arrays};
use rl_types::{List, Name};
use std::alloc::{AllocError, Global};

/// The version of arrays whose keys share cells, or of those whose keys do not.
fn version_of(shared: bool) -> i64
    ensures { result ≡ version_of shared }
{
    if shared { 2 } else { 1 }
}

fn no_arrays(alloc: Global, shared: bool, name: Name) -> Arrays
    ensures { result ≡ empty shared name }
{
    Arrays {
        version: version_of(shared),
        name,
        start: 0,
        first_final: 0,
        alphabet: 0,
        actions: List::new(alloc),
        key_offsets: List::new(alloc),
        trans_keys: List::new(alloc),
        single_lengths: List::new(alloc),
        range_lengths: List::new(alloc),
        cell_offsets: List::new(alloc),
        cell_uses: List::new(alloc),
        cell_asks: List::new(alloc),
        cell_entries: List::new(alloc),
        trans_targs: List::new(alloc),
        trans_lists: List::new(alloc),
        from_lists: List::new(alloc),
        to_lists: List::new(alloc),
        eof_lists: List::new(alloc),
        error_lists: List::new(alloc),
        accept_lists: List::new(alloc),
        state_kinds: List::new(alloc),
        homes: List::new(alloc),
        action_names: List::new(alloc),
        stmt_firsts: List::new(alloc),
        stmt_counts: List::new(alloc),
        stmt_kinds: List::new(alloc),
        stmt_outer: List::new(alloc),
        stmt_args: List::new(alloc),
        stmt_bases: List::new(alloc),
        cond_names: List::new(alloc),
        entry_names: List::new(alloc),
        entry_states: List::new(alloc),
    }
}

fn put_number(arrays: &mut Arrays, label: Label, number: i64)
    ensures { arrays.new ≡ with_number label number arrays.old }
{
    match label {
        Label::Start => arrays.start = number,
        Label::FirstFinal => arrays.first_final = number,
        Label::Alphabet => arrays.alphabet = number,
    }
}

fn put_numbers(arrays: &mut Arrays, array: ArrayName, numbers: List<i64>)
    ensures { arrays.new ≡ with_numbers array numbers arrays.old }
{
    match array {
        ArrayName::Actions => arrays.actions = numbers,
        ArrayName::KeyOffsets => arrays.key_offsets = numbers,
        ArrayName::TransKeys => arrays.trans_keys = numbers,
        ArrayName::SingleLengths => arrays.single_lengths = numbers,
        ArrayName::RangeLengths => arrays.range_lengths = numbers,
        ArrayName::CellOffsets => arrays.cell_offsets = numbers,
        ArrayName::CellUses => arrays.cell_uses = numbers,
        ArrayName::CellAsks => arrays.cell_asks = numbers,
        ArrayName::CellEntries => arrays.cell_entries = numbers,
        ArrayName::TransTargs => arrays.trans_targs = numbers,
        ArrayName::TransLists => arrays.trans_lists = numbers,
        ArrayName::FromLists => arrays.from_lists = numbers,
        ArrayName::ToLists => arrays.to_lists = numbers,
        ArrayName::EofLists => arrays.eof_lists = numbers,
        ArrayName::ErrorLists => arrays.error_lists = numbers,
        ArrayName::AcceptLists => arrays.accept_lists = numbers,
        ArrayName::StateKinds => arrays.state_kinds = numbers,
        ArrayName::Homes => arrays.homes = numbers,
        ArrayName::ActionNames => {}
        ArrayName::StmtFirsts => arrays.stmt_firsts = numbers,
        ArrayName::StmtCounts => arrays.stmt_counts = numbers,
        ArrayName::StmtKinds => arrays.stmt_kinds = numbers,
        ArrayName::StmtOuter => arrays.stmt_outer = numbers,
        ArrayName::StmtArgs => arrays.stmt_args = numbers,
        ArrayName::StmtBases => arrays.stmt_bases = numbers,
        ArrayName::CondNames => {}
        ArrayName::EntryNames => {}
        ArrayName::EntryStates => arrays.entry_states = numbers,
    }
}

fn put_names(arrays: &mut Arrays, array: ArrayName, names: List<Name>)
    ensures { arrays.new ≡ with_names array names arrays.old }
{
    match array {
        ArrayName::ActionNames => arrays.action_names = names,
        ArrayName::CondNames => arrays.cond_names = names,
        ArrayName::EntryNames => arrays.entry_names = names,
        _ => {}
    }
}

fn put_said(raw: &mut Raw, said: Said) -> Result<(), AllocError>
    ensures { OnOk result (raw.new ≡ put said raw.old) }
{
    match said {
        Said::Number(label, number) => put_number(&mut raw.arrays, label, number),
        Said::Entry(name, number) => raw.entries.push((name, number))?,
        Said::Numbers(array, numbers) => put_numbers(&mut raw.arrays, array, numbers),
        Said::Names(array, names) => put_names(&mut raw.arrays, array, names),
        Said::Error | Said::Last => {}
    }
    Ok(())
}

/// The section of which the lines say this.
pub(crate) fn gathered(
    alloc: Global,
    shared: bool,
    name: Name,
    said: Vec<Said>,
) -> Result<Raw, AllocError>
    ensures { IfOk result (λ raw. raw ≡ filled said.items (record { arrays = empty shared name; entries = [] })) }
{
    let mut raw = Raw {
        arrays: no_arrays(alloc, shared, name),
        entries: List::new(alloc),
    };
    for one in said {
        put_said(&mut raw, one)?;
    }
    Ok(raw)
}
