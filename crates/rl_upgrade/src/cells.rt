//! The cells that the keys of tables use, as values.
ghost use Rattle.std.specs.Prelude.{◌≡◌, ◌^◌, map, take, drop, count_ones, IfOk};
ghost use Rattle.std.specs.List.{zip};
ghost use Rattle.std.specs.Option.{option_map_or};
ghost use Rattle.rl_arrays.specs.Words.{natural};
ghost use Rattle.rl_arrays.specs.Sizes.{uses_end};
ghost use Rattle.rl_arrays.specs.TableMachine as Form;
ghost use Rattle.rl_arrays.specs.Shared.{cell_at, cells_used};
ghost use Rattle.rl_arrays.specs.Valid.{Valid};
ghost use Rattle.rl_upgrade.specs.Values.{pair_of, value_of};

use crate::lists::{count_at, count_of, front, push, rest_from};
use rl_tables::Arrays;
use rl_types::Memory;
use std::alloc::Global;

/// Where an entry leads: its target, and the number of its list.
#[derive(Clone, Copy, Debug, PartialEq, Eq, Hash)]
pub(crate) struct Leads {
    pub target: usize,
    pub list: usize,
}

/// A cell: the conditions that it asks, and where each of its entries leads.
#[derive(Debug, Drop, PartialEq, Eq, Hash)]
pub(crate) struct Cell {
    pub asks: usize,
    pub entries: Vec<Leads>,
}

// How often the keys of all states use a cell.
#[tactic(auto, using(crate::proofs::OldLaws::count_shared, crate::proofs::OldLaws::count_own))]
fn use_count(a: &Arrays) -> usize
    requires { Valid a.now }
    ensures { result ≡ option_map_or natural (uses_end a.now) 0 }
{
    if a.version == 2 {
        a.cell_uses.len().saturating_sub(1)
    } else {
        a.cell_asks.len().saturating_sub(1)
    }
}

// The cell of a use.
fn cell_used(a: &Arrays, place: usize) -> usize
    ensures { result ≡ Form.cell_used a.now place }
{
    if a.version == 2 {
        count_at(a.cell_uses.as_slice(), place)
    } else {
        place
    }
}

// Where entries with these targets and lists lead, as far as there are both.
fn entries_of(alloc: Global, targets: &[i64], lists: &[i64]) -> Result<Vec<Leads>, Memory>
    ensures { IfOk result (λ v. map pair_of v.items ≡ zip (map natural targets.now) (map natural lists.now)) }
{
    let mut entries = Vec::new(alloc);
    let mut more_targets = targets;
    let mut more_lists = lists;
    while let Some((target, rest_of_targets)) = more_targets.split_first() {
        match more_lists.split_first() {
            None => return Ok(entries),
            Some((list, rest_of_lists)) => {
                let entry = Leads {
                    target: count_of(*target),
                    list: count_of(*list),
                };
                push(&mut entries, entry)?;
                more_targets = rest_of_targets;
                more_lists = rest_of_lists;
            }
        }
    }
    Ok(entries)
}

// How many truths as many conditions have as are asked.
fn truths_of(asks: usize) -> u128
    ensures { result ≡ 2 ^ count_ones asks }
{
    2_u128.pow(asks.count_ones())
}

// The cell of this number.
fn cell_at(alloc: Global, a: &Arrays, c: usize) -> Result<Cell, Memory>
    ensures { IfOk result (λ v. value_of v ≡ cell_at a.now c) }
{
    let asks = count_at(a.cell_asks.as_slice(), c);
    let first = count_at(a.cell_entries.as_slice(), c);
    let size = truths_of(asks);
    let targets = front(rest_from(a.trans_targs.as_slice(), first), size);
    let lists = front(rest_from(a.trans_lists.as_slice(), first), size);
    let entries = entries_of(alloc, targets, lists)?;
    Ok(Cell { asks, entries })
}

/// The cells of all uses, in order.
pub(crate) fn cells_used(alloc: Global, a: &Arrays) -> Result<Vec<Cell>, Memory>
    requires { Valid a.now }
    ensures { IfOk result (λ v. map value_of v.items ≡ cells_used a.now) }
{
    let mut cells = Vec::new(alloc);
    for place in 0..use_count(a) {
        let cell = cell_at(alloc, a, cell_used(a, place))?;
        push(&mut cells, cell)?;
    }
    Ok(cells)
}
