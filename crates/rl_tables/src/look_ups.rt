//! Look-ups in arrays. An element that is missing is read as 0.
ghost use Rattle.std.specs.Prelude.{◌≡◌, ◌<◌, ◌≤◌, ◌+◌, ◌^◌, ℕ, List, length, take, drop, not, ◌==◌, bit_and, IfSome, if◌then◌else◌, ◌&&◌, int_le, max};
ghost use Rattle.std.specs.List.{filter, position};
ghost use Rattle.std.specs.Ordering.{int_eq};
ghost use Rattle.rl_arrays.specs.Words.{natural, number_at};
ghost use Rattle.rl_arrays.specs.Valid.{Valid};
ghost use Rattle.rl_arrays.specs.KeyRules as keys;
ghost use Rattle.rl_arrays.specs.TableMachine as machine;

use crate::cells::shares;
use crate::numbers::count_of;
use rl_arrays::Arrays;
use rl_types::{Alphabet, Key};

/// The count at an index; 0 where the element is missing or negative.
pub(crate) fn count_at(xs: &[i64], i: usize) -> usize
    ensures value { result ≡ number_at xs.now i }
    ensures small { result < 2 ^ 63 }
{
    match xs.get(i) {
        Some(n) => count_of(*n),
        None => 0,
    }
}

/// All from an index on.
#[tactic(auto, using(std::proofs::lemmas::List::drop_all))]
fn rest_from(xs: &[i64], from: usize) -> &[i64]
    ensures { result.now ≡ drop from xs.now }
{
    if from < xs.len() { &xs[from..] } else { &[] }
}

/// The first so many.
#[tactic(auto, using(std::proofs::lemmas::List::take_all))]
fn front(xs: &[i64], count: usize) -> &[i64]
    ensures { result.now ≡ take count xs.now }
{
    if count < xs.len() { &xs[..count] } else { xs }
}

/// The members of the list at a place.
pub(crate) fn members_at(actions: &[i64], place: usize) -> &[i64]
    requires { place < 2 ^ 63 }
    ensures { result.now ≡ take (number_at actions.now place) (drop (place + 1) actions.now) }
{
    front(rest_from(actions, place + 1), count_at(actions, place))
}

/// The single keys of a state.
fn single_keys(a: &Arrays, state: usize) -> &[i64]
    ensures { result.now ≡ machine.single_keys a.now state }
{
    let first = count_at(a.key_offsets.as_slice(), state);
    let singles = count_at(a.single_lengths.as_slice(), state);
    front(rest_from(a.trans_keys.as_slice(), first), singles)
}

/// The ends of the ranges of a state, each low with its high behind it.
fn range_ends(a: &Arrays, state: usize) -> &[i64]
    ensures { result.now ≡ machine.range_ends a.now state }
{
    let first = count_at(a.key_offsets.as_slice(), state);
    let singles = count_at(a.single_lengths.as_slice(), state);
    let ranges = count_at(a.range_lengths.as_slice(), state);
    front(
        rest_from(a.trans_keys.as_slice(), first + singles),
        2 * ranges,
    )
}

/// The place of a single key.
fn single_of(keys: &[i64], key: Key) -> Option<usize>
    ensures { result ≡ position (int_eq key.0) keys.now }
{
    keys.iter().position(|k| key.0 == *k)
}

/// Whether a range holds a key.
fn holds(low: &i64, high: &i64, key: Key) -> bool
    ensures { result ≡ (int_le low.now key.0 && int_le key.0 high.now) }
{
    *low <= key.0 && key.0 <= *high
}

/// The number of the range that holds a key.
fn range_of(ends: &[i64], key: Key) -> Option<usize>
    ensures value { result ≡ machine.range_of key.0 ends.now }
    ensures small { IfSome result (λ r. r < length ends.now) }
{
    let mut rest = ends;
    let mut range: usize = 0;
    while let Some((low, behind)) = rest.split_first() {
        match behind.split_first() {
            None => return None,
            Some((high, others)) => {
                if holds(low, high, key) {
                    return Some(range);
                }
                rest = others;
                range += 1;
            }
        }
    }
    None
}

/// The cell of a key among those of its state.
fn cell_within(a: &Arrays, state: usize, key: Key) -> Option<usize>
    ensures { result ≡ machine.cell_within a.now state key.0 }
{
    match single_of(single_keys(a, state), key) {
        Some(single) => Some(single),
        None => match range_of(range_ends(a, state), key) {
            Some(range) => Some(count_at(a.single_lengths.as_slice(), state) + range),
            None => None,
        },
    }
}

/// A place so far behind another one, where an array on cells has it.
fn place_behind(a: &Arrays, first: usize, behind: usize) -> usize
    requires { first + behind < max (length a.now.cell_asks) (length a.now.cell_uses) }
    ensures { result ≡ first + behind }
{
    let _ = a.cell_asks.len().max(a.cell_uses.len());
    first + behind
}

/// The cell of a use.
pub(crate) fn cell_used(a: &Arrays, place: usize) -> usize
    ensures { result ≡ machine.cell_used a.now place }
{
    if shares(a) {
        count_at(a.cell_uses.as_slice(), place)
    } else {
        place
    }
}

/// The cell of a key.
pub(crate) fn cell_of(a: &Arrays, state: usize, key: Key) -> Option<usize>
    requires { Valid a.now }
    ensures value { result ≡ machine.cell_of a.now state key.0 }
    ensures exists { IfSome result (λ c. c < length a.now.cell_asks) }
{
    match cell_within(a, state, key) {
        Some(cell) => {
            let first = count_at(a.cell_offsets.as_slice(), state);
            Some(cell_used(a, place_behind(a, first, cell)))
        }
        None => None,
    }
}

/// The alphabet with this number.
pub(crate) fn alphabet_of(number: i64) -> Option<Alphabet>
    ensures { result ≡ keys.alphabet_of number }
{
    match number {
        0 => Some(Alphabet::Char),
        1 => Some(Alphabet::UnsignedChar),
        2 => Some(Alphabet::Short),
        3 => Some(Alphabet::UnsignedShort),
        4 => Some(Alphabet::Int),
        5 => Some(Alphabet::UnsignedInt),
        _ => None,
    }
}

/// The conditions, each as 2 to its number less 1.
const CONDITIONS: [usize; 8] = [1, 2, 4, 8, 16, 32, 64, 128];

/// 1 where the condition holds, else 0.
fn bit_of(hold: usize, condition: usize) -> usize
    ensures value { result ≡ (if bit_and hold condition == 0 then 0 else 1) }
    ensures small { result ≤ 1 }
{
    if hold & condition == 0 { 0 } else { 1 }
}

/// The number of the entry in which exactly those of the asked conditions hold, of these conditions in order.
fn entry_number(conditions: &[usize], asks: usize, hold: usize) -> usize
    requires { length conditions.now ≤ 8 }
    ensures value { result ≡ machine.entry_number (filter (λ bit. not (bit_and asks bit == 0)) conditions.now) hold }
    ensures small { result < 2 ^ 8 }
{
    let mut rest = conditions;
    let mut number: usize = 0;
    let mut weight: usize = 1;
    while let Some((condition, others)) = rest.split_first() {
        if asks & *condition != 0 {
            number += weight * bit_of(hold, *condition);
            weight *= 2;
        }
        rest = others;
    }
    number
}

/// The entry of a cell where these conditions hold.
fn entry_at(a: &Arrays, cell: usize, hold: usize) -> usize
    ensures { result ≡ number_at a.now.cell_entries cell + machine.entry_number (machine.asked_bits (number_at a.now.cell_asks cell)) hold }
{
    let asks = count_at(a.cell_asks.as_slice(), cell);
    let conditions = CONDITIONS;
    let number = entry_number(&conditions, asks, hold);
    count_at(a.cell_entries.as_slice(), cell) + number
}

/// The entry of a key where these conditions hold.
pub(crate) fn entry_of(a: &Arrays, state: usize, key: Key, hold: usize) -> Option<usize>
    requires { Valid a.now }
    ensures value { result ≡ machine.entry_of a.now state key.0 hold }
    ensures exists { IfSome result (λ e. e < length a.now.trans_targs) }
{
    match cell_of(a, state, key) {
        Some(cell) => Some(entry_at(a, cell, hold)),
        None => None,
    }
}
