//! Offsets of the states, and first statements of the actions.
ghost use Rattle.std.specs.Prelude.{◌≡◌, ◌<◌, ◌↔◌, IsTrue, length};
ghost use Rattle.rl_arrays.specs.Words.{sum_before, IfAt};
ghost use Rattle.rl_arrays.specs.Sizes.{keys_of, uses_of};
ghost use Rattle.rl_arrays.specs.Rules.{IsSum};
ghost use Rattle.rl_arrays.specs.Valid.{FirstWrong, Right};

use crate::sums::{is_sum, keys_of_state, longer, uses_of_state};
use rl_arrays::{ArrayName, Arrays};

/// The most elements of the first array of states, of actions and of entries (this profile).
pub(crate) const MOST: usize = 2_147_483_647;

/// Whether the place of a state's keys is right, where the sum of those before is known.
fn is_key_offset(a: &Arrays, s: usize, place: Option<i128>) -> bool
    requires { place ≡ sum_before (keys_of a.now) s }
    ensures { IsTrue result ↔ Right a.now ArrayName.KeyOffsets s }
{
    match a.key_offsets.get(s) {
        Some(n) => s < MOST && is_sum(place, *n),
        None => false,
    }
}

/// The first wrong place of a state's keys.
pub(crate) fn in_key_offsets(a: &Arrays) -> Option<usize>
    ensures { FirstWrong a.now ArrayName.KeyOffsets result }
{
    let mut place: Option<i128> = Some(0);
    for s in 0..a.key_offsets.as_slice().len() {
        if !is_key_offset(a, s, place) {
            return Some(s);
        }
        place = longer(place, keys_of_state(a, s), s);
    }
    if a.key_offsets.len() < 2 {
        Some(a.key_offsets.len())
    } else {
        None
    }
}

/// Whether the place of a state's first use of a cell is right, where the sum of those before is known.
fn is_cell_offset(a: &Arrays, s: usize, place: Option<i128>) -> bool
    requires { place ≡ sum_before (uses_of a.now) s }
    ensures { IsTrue result ↔ Right a.now ArrayName.CellOffsets s }
{
    match a.cell_offsets.get(s) {
        Some(n) => s < a.key_offsets.len() && is_sum(place, *n),
        None => false,
    }
}

/// The first wrong place of a state's first use of a cell.
pub(crate) fn in_cell_offsets(a: &Arrays) -> Option<usize>
    ensures { FirstWrong a.now ArrayName.CellOffsets result }
{
    let mut place: Option<i128> = Some(0);
    for s in 0..a.cell_offsets.as_slice().len() {
        if !is_cell_offset(a, s, place) {
            return Some(s);
        }
        place = longer(place, uses_of_state(a, s), s);
    }
    if a.cell_offsets.len() < a.key_offsets.len() {
        Some(a.cell_offsets.len())
    } else {
        None
    }
}
