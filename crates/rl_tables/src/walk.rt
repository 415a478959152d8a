//! The way from a state over its uses to cells and their entries, where the arrays on cells are right.
ghost use Rattle.std.specs.Prelude.{◌≡◌, ◌<◌, ◌≤◌, ◌+◌, ◌^◌, ◌↔◌, ℕ, Some, pos, length};
ghost use Rattle.rl_arrays.specs.Words.{sum_before};
ghost use Rattle.rl_arrays.specs.Sizes.{states, uses_of, entries_of, used_cell, uses_end, cells_end, IsIn};
ghost use Rattle.rl_arrays.specs.Valid.{SoundBefore};
ghost use Rattle.rl_tables.specs.Ends.{IsInside};

use crate::cells::{shares, truths_of};
use crate::keys::clipped;
use crate::look_ups::{cell_used, count_at};
use rl_arrays::Arrays;

/// How often cells are used.
fn use_count(a: &Arrays) -> usize
    requires { SoundBefore a.now 9 }
    ensures { uses_end a.now ≡ Some (pos result) }
{
    if shares(a) {
        a.cell_uses.len() - 1
    } else {
        a.cell_asks.len() - 1
    }
}

/// The place of a state's first use of a cell. Behind the last state it is the place behind all uses.
fn first_use(a: &Arrays, s: usize) -> usize
    requires sound { SoundBefore a.now 9 }
    requires state { s ≤ states a.now }
    ensures sum { sum_before (uses_of a.now) s ≡ Some (pos result) }
    ensures inside { (place : ℕ) → place < result → IsInside (uses_end a.now) place }
{
    if s < a.key_offsets.len() {
        count_at(a.cell_offsets.as_slice(), s)
    } else {
        use_count(a)
    }
}

/// The places of a state's uses of cells: the first, and the one behind the last.
pub(crate) fn use_range(a: &Arrays, s: usize) -> (usize, usize)
    requires sound { SoundBefore a.now 9 }
    requires state { s < states a.now }
    requires few { s + 1 < 2 ^ 64 }
    ensures uses { (place : ℕ) → IsIn (uses_of a.now) s place ↔ ((result.0 ≤ place) × (place < result.1)) }
    ensures ordered { result.0 ≤ result.1 }
    ensures inside { (place : ℕ) → place < result.1 → IsInside (uses_end a.now) place }
{
    (first_use(a, s), first_use(a, s + 1))
}

/// The cell of a use.
pub(crate) fn cell_at(a: &Arrays, place: usize) -> usize
    requires sound { SoundBefore a.now 9 }
    requires inside { IsInside (uses_end a.now) place }
    ensures cell { used_cell a.now place ≡ Some (pos result) }
    ensures exists { IsInside (cells_end a.now) result }
{
    cell_used(a, place)
}

/// The entries of a cell, as far as an array with so many elements has them: the first, and the one behind the last.
pub(crate) fn entries_within(a: &Arrays, cell: usize, has: usize) -> (usize, usize)
    requires sound { SoundBefore a.now 9 }
    requires inside { IsInside (cells_end a.now) cell }
    ensures entries { (e : ℕ) → e < has → IsIn (entries_of a.now) cell e ↔ ((result.0 ≤ e) × (e < result.1)) }
    ensures few { (result.0 ≤ has) × (result.1 ≤ has) }
{
    let first = count_at(a.cell_entries.as_slice(), cell) as i128;
    let width = truths_of(count_at(a.cell_asks.as_slice(), cell));
    (clipped(first, has), clipped(first + width, has))
}
