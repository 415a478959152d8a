//! The uses of cells, the cells, and how many entries they have.
ghost use Rattle.std.specs.Prelude.{◌≡◌, ◌<◌, ◌^◌, ◌↔◌, IsTrue, Some, pos, count_ones, length, if◌then◌else◌};
ghost use Rattle.rl_arrays.specs.Words.{natural, sum_before, IfAt};
ghost use Rattle.rl_arrays.specs.Sizes.{conditions, uses_of, entries_of, uses_end, cells_end, entries_end, one_more, IsClosing};
ghost use Rattle.rl_arrays.specs.Sizes as Form;
ghost use Rattle.rl_arrays.specs.Rules.{UseSays, AskSays, CellEntrySays};
ghost use Rattle.rl_arrays.specs.Valid.{FirstWrong, Right, SoundBefore};
ghost use Rattle.rl_tables.specs.Small.{IsUpTo};

use crate::numbers::{count_of, is_below};
use crate::sums::{is_sum, longer, uses_of_state};
use rl_arrays::{ArrayName, Arrays};

/// Whether keys share cells.
pub(crate) fn shares(a: &Arrays) -> bool
    ensures { result ≡ Form.shares a.now }
{
    a.version == 2
}

/// How many cells are shared.
fn shared_cells(a: &Arrays) -> usize
    ensures { result ≡ Form.shared_cells a.now }
{
    a.cell_asks.len().saturating_sub(1)
}

/// How often the keys of all states use a cell.
fn uses_of_all(a: &Arrays) -> Option<i128>
    ensures value { result ≡ uses_end a.now }
    ensures small { IsUpTo (2 ^ 126) result }
{
    let mut place: Option<i128> = Some(0);
    for s in 0..a.key_offsets.as_slice().len() {
        place = longer(place, uses_of_state(a, s), s);
    }
    place
}

/// How many cells there are.
fn cells_of_all(a: &Arrays) -> Option<i128>
    ensures value { result ≡ cells_end a.now }
    ensures small { IsUpTo (2 ^ 126) result }
{
    if shares(a) {
        Some(shared_cells(a) as i128)
    } else {
        uses_of_all(a)
    }
}

/// How many entries a cell has.
fn entries_of_cell(a: &Arrays, c: usize) -> Option<i128>
    ensures value { result ≡ entries_of a.now c }
    ensures small { IsUpTo (2 ^ 66) result }
{
    match a.cell_asks.get(c) {
        Some(asks) => Some(truths_of(count_of(*asks))),
        None => None,
    }
}

/// How many truths as many conditions have as are asked.
pub(crate) fn truths_of(asks: usize) -> i128
    ensures value { result ≡ pos (2 ^ count_ones asks) }
    ensures small { IsUpTo (2 ^ 66) (Some result) }
{
    2_u128.pow(asks.count_ones()) as i128
}

/// How many entries the cells before have.
fn entries_before(a: &Arrays, cells: usize) -> Option<i128>
    requires { cells < 2 ^ 60 }
    ensures value { result ≡ sum_before (entries_of a.now) cells }
    ensures small { IsUpTo (2 ^ 126) result }
{
    let mut place: Option<i128> = Some(0);
    for c in 0..cells {
        place = longer(place, entries_of_cell(a, c), c);
    }
    place
}

/// How many entries all cells have.
pub(crate) fn entries_of_all(a: &Arrays) -> Option<i128>
    ensures value { result ≡ entries_end a.now }
    ensures small { IsUpTo (2 ^ 126) result }
{
    let cells = cells_of_all(a)?;
    if cells <= 0 {
        return Some(0);
    }
    if cells > a.cell_asks.as_slice().len() as i128 {
        return None;
    }
    entries_before(a, cells as usize)
}

/// Whether an index is below a sum and one more.
pub(crate) fn is_due(end: Option<i128>, i: usize, has: usize) -> bool
    requires { IsUpTo (2 ^ 126) end }
    ensures { IsTrue result ↔ (i < one_more end has) }
{
    match end {
        Some(sum) => i as i128 <= sum,
        None => i < has,
    }
}

/// Whether the place is that of the closing element.
pub(crate) fn is_closing(end: Option<i128>, place: usize) -> bool
    ensures { IsTrue result ↔ IsClosing end place }
{
    match end {
        Some(sum) => sum == place as i128,
        None => false,
    }
}

/// Whether the asked conditions are among those that there are.
fn are_known(a: &Arrays, asks: i64) -> bool
    ensures { IsTrue result ↔ (natural asks < 2 ^ conditions a.now) }
{
    let asked = count_of(asks);
    let conditions = a.cond_names.len().saturating_sub(1);
    if conditions >= 63 {
        return true;
    }
    asked < 2_usize.pow(conditions as u32)
}

fn is_ask(a: &Arrays, end: Option<i128>, c: usize, asks: i64) -> bool
    requires { end ≡ cells_end a.now }
    ensures { IsTrue result ↔ AskSays a.now c asks }
{
    if asks != 0 && is_closing(end, c) {
        return false;
    }
    asks >= 0 && are_known(a, asks)
}

fn is_use(a: &Arrays, end: Option<i128>, place: usize, cell: i64) -> bool
    requires { end ≡ uses_end a.now }
    ensures { IsTrue result ↔ UseSays a.now place cell }
{
    if is_closing(end, place) {
        return cell == 0;
    }
    cell >= 0 && is_below(cell, shared_cells(a))
}

/// Whether a use of a cell is there, due and right.
fn is_right_use(a: &Arrays, end: Option<i128>, place: usize) -> bool
    requires end_is { end ≡ uses_end a.now }
    requires small { IsUpTo (2 ^ 126) end }
    ensures { IsTrue result ↔ Right a.now ArrayName.CellUses place }
{
    let has = a.cell_uses.len();
    match a.cell_uses.get(place) {
        Some(cell) => shares(a) && is_due(end, place, has) && is_use(a, end, place, *cell),
        None => false,
    }
}

/// The first wrong use of a cell: in version 1 any at all.
pub(crate) fn in_cell_uses(a: &Arrays) -> Option<usize>
    ensures { FirstWrong a.now ArrayName.CellUses result }
{
    let has = a.cell_uses.len();
    let end = uses_of_all(a);
    for place in 0..has {
        if !is_right_use(a, end, place) {
            return Some(place);
        }
    }
    if shares(a) && is_due(end, has, has) {
        Some(has)
    } else {
        None
    }
}

/// The first cell that asks what is no condition.
pub(crate) fn in_cell_asks(a: &Arrays) -> Option<usize>
    requires { SoundBefore a.now 7 }
    ensures { FirstWrong a.now ArrayName.CellAsks result }
{
    let has = a.cell_asks.len();
    let end = cells_of_all(a);
    for (c, asks) in a.cell_asks.as_slice().iter().enumerate() {
        if !is_due(end, c, has) || !is_ask(a, end, c, *asks) {
            return Some(c);
        }
    }
    if is_due(end, has, has) {
        Some(has)
    } else {
        None
    }
}

/// Whether the place of a cell's entries is right, where the sum of those before is known.
fn is_cell_entry(a: &Arrays, end: Option<i128>, c: usize, place: Option<i128>) -> bool
    requires end_is { end ≡ cells_end a.now }
    requires place_is { place ≡ sum_before (entries_of a.now) c }
    ensures { IsTrue result ↔ Right a.now ArrayName.CellEntries c }
{
    match a.cell_entries.get(c) {
        Some(n) => c < a.cell_asks.len()
            && (if is_closing(end, c) {
                *n == 0
            } else {
                is_sum(place, *n)
            }),
        None => false,
    }
}

/// The first wrong place of a cell's entries.
pub(crate) fn in_cell_entries(a: &Arrays) -> Option<usize>
    requires { SoundBefore a.now 8 }
    ensures { FirstWrong a.now ArrayName.CellEntries result }
{
    let end = cells_of_all(a);
    let mut place: Option<i128> = Some(0);
    for c in 0..a.cell_entries.as_slice().len() {
        if !is_cell_entry(a, end, c, place) {
            return Some(c);
        }
        place = longer(place, entries_of_cell(a, c), c);
    }
    if a.cell_entries.len() < a.cell_asks.len() {
        Some(a.cell_entries.len())
    } else {
        None
    }
}
