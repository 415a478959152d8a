//! The cells that keys use, each different one once, and their arrays.
ghost use Rattle.std.specs.Prelude.{◌≡◌, ◌<◌, ◌∷◌, ◌++◌, [], Some, pos, length, map, slice_get, IfOk};
ghost use Rattle.std.specs.List.{flat_map};
ghost use Rattle.rl_arrays.specs.Shared.{with_cell, shared, uses_array, asks_array, places_from, entries_array, targets_array, lists_array};
ghost use Rattle.rl_upgrade.specs.Values.{pair_of, value_of, values, number_among, arrays_of, stored};

use crate::cells::{Cell, Leads};
use crate::lists::{number, push};
use indexmap::IndexSet;
use rl_types::{List, Memory};
use std::alloc::Global;

// Adds a cell, unless an equal one is there.
fn add_cell<'a>(cells: &mut IndexSet<&'a Cell>, cell: &'a Cell) -> Result<(), Memory>
    ensures { IfOk result (λ _. values cells.new.keys ≡ with_cell (values cells.old.keys) (value_of cell.now)) }
{
    match cells.insert(cell) {
        Ok(_) => Ok(()),
        Err(_) => Err(Memory),
    }
}

// These cells, each different one once, at its first use.
#[tactic(auto, unfolding(rl_arrays::specs::Shared::shared))]
fn shared<'a>(alloc: Global, used: &'a [Cell]) -> Result<IndexSet<&'a Cell>, Memory>
    ensures { IfOk result (λ s. values s.keys ≡ shared (map value_of used.now)) }
{
    let mut cells = IndexSet::new(alloc);
    for cell in used {
        add_cell(&mut cells, cell)?;
    }
    Ok(cells)
}

// The number of a cell among those that are shared.
fn number_in(cells: &IndexSet<&Cell>, cell: &Cell) -> usize
    ensures { result ≡ number_among (values cells.now.keys) (value_of cell.now) }
{
    match cells.get_index_of(&cell) {
        Some(i) => i,
        None => 0,
    }
}

// The numbers of the cells that are used, and the closing element.
fn numbers_of(alloc: Global, cells: &IndexSet<&Cell>, used: &[Cell]) -> Result<List<i64>, Memory>
    ensures { IfOk result (λ v. v ≡ map (λ c. pos (number_among (values cells.now.keys) c)) (map value_of used.now) ++ pos 0 ∷ []) }
{
    let mut numbers = Vec::new(alloc);
    for cell in used {
        push(&mut numbers, number(number_in(cells, cell))?)?;
    }
    push(&mut numbers, 0)?;
    Ok(List::from_vec(numbers))
}

// The uses of cells, and the closing element.
#[tactic(auto, unfolding(crate::specs::Values::number_among))]
fn cell_uses(alloc: Global, cells: &IndexSet<&Cell>, used: &[Cell]) -> Result<List<i64>, Memory>
    ensures { IfOk result (λ v. v ≡ uses_array (values cells.now.keys) (map value_of used.now)) }
{
    let uses = numbers_of(alloc, cells, used)?;
    Ok(uses)
}

// The cell of a number.
fn cell_at<'a>(cells: &IndexSet<&'a Cell>, i: usize) -> &'a Cell
    requires { i < length cells.now.keys }
    ensures { slice_get cells.now.keys i ≡ Some result }
{
    match cells.get_index(i) {
        Some(cell) => *cell,
        None => unreachable!(),
    }
}

// The cells one after another.
fn listed<'a>(alloc: Global, cells: &IndexSet<&'a Cell>) -> Result<Vec<&'a Cell>, Memory>
    ensures { IfOk result (λ v. v.items ≡ cells.now.keys) }
{
    let mut list = Vec::new(alloc);
    for i in 0..cells.len() {
        push(&mut list, cell_at(cells, i))?;
    }
    Ok(list)
}

// The asked conditions of cells, and the closing element.
fn cell_asks(alloc: Global, cells: &[&Cell]) -> Result<List<i64>, Memory>
    ensures { IfOk result (λ v. v ≡ asks_array (values cells.now)) }
{
    let mut asks = Vec::new(alloc);
    for cell in cells {
        push(&mut asks, number(cell.asks)?)?;
    }
    push(&mut asks, 0)?;
    Ok(List::from_vec(asks))
}

// Puts where the entries of each cell begin at the end.
fn push_places(places: &mut Vec<i64>, cells: &[&Cell]) -> Result<(), Memory>
    ensures { IfOk result (λ _. places.new.items ≡ places.old.items ++ places_from 0 (values cells.now)) }
{
    let mut place: usize = 0;
    for cell in cells {
        push(places, number(place)?)?;
        place = match place.checked_add(cell.entries.len()) {
            Some(next) => next,
            None => return Err(Memory),
        };
    }
    Ok(())
}

// Where the entries of each cell begin, and the closing element.
fn cell_entries(alloc: Global, cells: &[&Cell]) -> Result<List<i64>, Memory>
    ensures { IfOk result (λ v. v ≡ entries_array (values cells.now)) }
{
    let mut places = Vec::new(alloc);
    push_places(&mut places, cells)?;
    push(&mut places, 0)?;
    Ok(List::from_vec(places))
}

// Puts the targets of entries at the end.
fn push_targets(targets: &mut Vec<i64>, entries: &[Leads]) -> Result<(), Memory>
    ensures { IfOk result (λ _. targets.new.items ≡ targets.old.items ++ map (λ e. pos e.0) (map pair_of entries.now)) }
{
    for entry in entries {
        push(targets, number(entry.target)?)?;
    }
    Ok(())
}

// Puts the targets of the entries of cells at the end.
fn push_targets_of(targets: &mut Vec<i64>, cells: &[&Cell]) -> Result<(), Memory>
    ensures { IfOk result (λ _. targets.new.items ≡ targets.old.items ++ flat_map (λ c. map (λ e. pos e.0) c.entries) (values cells.now)) }
{
    for cell in cells {
        push_targets(targets, cell.entries.as_slice())?;
    }
    Ok(())
}

// The targets of all entries, and the closing element.
fn trans_targets(alloc: Global, cells: &[&Cell]) -> Result<List<i64>, Memory>
    ensures { IfOk result (λ v. v ≡ targets_array (values cells.now)) }
{
    let mut targets = Vec::new(alloc);
    push_targets_of(&mut targets, cells)?;
    push(&mut targets, 0)?;
    Ok(List::from_vec(targets))
}

// Puts the places of the lists of entries at the end.
fn push_lists(numbers: &mut Vec<i64>, entries: &[Leads]) -> Result<(), Memory>
    ensures { IfOk result (λ _. numbers.new.items ≡ numbers.old.items ++ map (λ e. pos e.1) (map pair_of entries.now)) }
{
    for entry in entries {
        push(numbers, number(entry.list)?)?;
    }
    Ok(())
}

// Puts the places of the lists of the entries of cells at the end.
fn push_lists_of(numbers: &mut Vec<i64>, cells: &[&Cell]) -> Result<(), Memory>
    ensures { IfOk result (λ _. numbers.new.items ≡ numbers.old.items ++ flat_map (λ c. map (λ e. pos e.1) c.entries) (values cells.now)) }
{
    for cell in cells {
        push_lists(numbers, cell.entries.as_slice())?;
    }
    Ok(())
}

// The places of the lists of all entries, and the closing element.
fn trans_lists(alloc: Global, cells: &[&Cell]) -> Result<List<i64>, Memory>
    ensures { IfOk result (λ v. v ≡ lists_array (values cells.now)) }
{
    let mut numbers = Vec::new(alloc);
    push_lists_of(&mut numbers, cells)?;
    push(&mut numbers, 0)?;
    Ok(List::from_vec(numbers))
}

/// The arrays of uses, and of the cells that are stored.
#[derive(Drop)]
pub(crate) struct Stored {
    pub uses: List<i64>,
    pub asks: List<i64>,
    pub entries: List<i64>,
    pub targets: List<i64>,
    pub lists: List<i64>,
}

// The arrays of cells.
fn arrays_of(alloc: Global, uses: List<i64>, cells: &[&Cell]) -> Result<Stored, Memory>
    ensures { IfOk result (λ s. s ≡ arrays_of uses (values cells.now)) }
{
    let asks = cell_asks(alloc, cells)?;
    let entries = cell_entries(alloc, cells)?;
    let targets = trans_targets(alloc, cells)?;
    let lists = trans_lists(alloc, cells)?;
    Ok(Stored {
        uses,
        asks,
        entries,
        targets,
        lists,
    })
}

/// The arrays of the cells that are used, each different one stored once, at its first use.
pub(crate) fn stored_cells(alloc: Global, used: &[Cell]) -> Result<Stored, Memory>
    ensures { IfOk result (λ s. s ≡ stored (map value_of used.now)) }
{
    let table = shared(alloc, used)?;
    let uses = cell_uses(alloc, &table, used)?;
    let cells = listed(alloc, &table)?;
    let stored = arrays_of(alloc, uses, &cells)?;
    Ok(stored)
}
