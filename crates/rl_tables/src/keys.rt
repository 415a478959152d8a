//! The keys of the states. As lengths are checked later, a place may be one of the keys of several states: so each state
//! looks through its own places, as far as they are there, and the least wrong one is the first wrong one.
ghost use Rattle.std.specs.Prelude.{◌≡◌, ◌<◌, ◌≤◌, ◌+◌, ◌*◌, ◌%◌, ◌^◌, ◌↔◌, ℕ, ℤ, IsTrue, Some, IsSomeAnd, pos, ◌+ℤ◌, ◌≤ℤ◌, ◌<ℤ◌, min, length, slice_get};
ghost use Rattle.rl_arrays.specs.Words.{natural, sum_before, IfAt, IsFirstWrong};
ghost use Rattle.rl_arrays.specs.Sizes.{states, keys_of, keys_end, IsClosing};
ghost use Rattle.rl_arrays.specs.KeyRules.{IsSingle, IsKey, IsAbove, IsOutside};
ghost use Rattle.rl_arrays.specs.Valid.{FirstWrong, SoundBefore, span};
ghost use Rattle.rl_tables.specs.KeyParts as Parts;
ghost use Rattle.rl_tables.specs.KeyParts.{SingleSays, EndSays, StateSays, StatesSay, IsClosed};
ghost use Rattle.rl_tables.specs.Small.{IsUpTo};

use crate::cells::{is_closing, is_due};
use crate::look_ups::alphabet_of;
use crate::sums::{keys_of_state, longer, number_at};
use rl_arrays::{ArrayName, Arrays};

/// The lesser of two indexes, where there is one.
pub(crate) fn lesser(one: Option<usize>, other: Option<usize>) -> Option<usize>
    ensures { result ≡ Parts.lesser one other }
{
    match one {
        Some(i) => match other {
            Some(j) => Some(i.min(j)),
            None => Some(i),
        },
        None => other,
    }
}

/// A place as an index of an array with so many elements.
pub(crate) fn clipped(place: i128, has: usize) -> usize
    ensures value { result ≡ min (natural place) has }
    ensures below { (k : ℕ) → k < result → pos k <ℤ place }
    ensures above { (k : ℕ) → result ≤ k → k < has → place ≤ℤ pos k }
{
    if place <= 0 {
        return 0;
    }
    if place < has as i128 {
        place as usize
    } else {
        has
    }
}

/// Whether the alphabet has the key.
fn is_key(a: &Arrays, key: i64) -> bool
    ensures { IsTrue result ↔ IsKey a.now key }
{
    match alphabet_of(a.alphabet) {
        Some(alphabet) => alphabet.least_key() <= key && key <= alphabet.greatest_key(),
        None => true,
    }
}

/// Whether the key is above the one before it.
fn is_above(keys: &[i64], place: usize, key: i64) -> bool
    ensures { IsTrue result ↔ IsAbove keys.now place key }
{
    if place == 0 {
        return true;
    }
    match keys.get(place - 1) {
        Some(before) => *before < key,
        None => true,
    }
}

/// Whether the range whose low stands at the place does not hold another key.
fn is_outside(keys: &[i64], place: usize, low: i64, other: usize) -> bool
    ensures { IsTrue result ↔ IsOutside keys.now place low other }
{
    let key = keys.get(other);
    let Some(next) = place.checked_add(1) else {
        return true;
    };
    match keys.get(next) {
        Some(high) => match key {
            Some(key) => *key < low || *high < *key,
            None => true,
        },
        None => true,
    }
}

/// How far a place is behind another.
fn offset(place: usize, first: i128) -> u128
    requires behind { first ≤ℤ pos place }
    requires small { IsUpTo (2 ^ 126 + 2 ^ 63) (Some first) }
    ensures { pos place ≡ first +ℤ pos result }
{
    (place as i128 - first) as u128
}

/// Whether the key is above the one before it, where it is not the first of its kind in the state.
fn ascends(a: &Arrays, p: u128, place: usize, key: i64) -> bool
    ensures { IsTrue result ↔ (0 < p → IsAbove a.now.trans_keys place key) }
{
    if p == 0 {
        return true;
    }
    is_above(a.trans_keys.as_slice(), place, key)
}

/// Whether what is said of a single key of the state holds, where these begin at `first`.
fn is_single_key(a: &Arrays, s: usize, first: i128, place: usize, key: i64) -> bool
    requires state { s < states a.now }
    requires first_is { sum_before (keys_of a.now) s ≡ Some first }
    requires first_small { IsUpTo (2 ^ 126) (Some first) }
    requires from { first ≤ℤ pos place }
    requires to { IsSomeAnd (slice_get a.now.single_lengths s) (λ singles. pos place <ℤ (first +ℤ singles)) }
    ensures { IsTrue result ↔ SingleSays a.now s place key }
{
    let p = offset(place, first);
    if !is_key(a, key) {
        return false;
    }
    ascends(a, p, place, key)
}

/// The same of the key at the place, if it is there.
fn is_single(a: &Arrays, s: usize, first: i128, place: usize) -> bool
    requires state { s < states a.now }
    requires first_is { sum_before (keys_of a.now) s ≡ Some first }
    requires first_small { IsUpTo (2 ^ 126) (Some first) }
    requires from { first ≤ℤ pos place }
    requires to { IsSomeAnd (slice_get a.now.single_lengths s) (λ singles. pos place <ℤ (first +ℤ singles)) }
    ensures { IsTrue result ↔ IfAt a.now.trans_keys place (SingleSays a.now s place) }
{
    match a.trans_keys.get(place) {
        Some(key) => is_single_key(a, s, first, place, *key),
        None => true,
    }
}

/// The first wrong one of a state's single keys.
fn wrong_single(a: &Arrays, s: usize, first: i128, singles: i128) -> Option<usize>
    requires state { s < states a.now }
    requires first_is { sum_before (keys_of a.now) s ≡ Some first }
    requires singles_are { slice_get a.now.single_lengths s ≡ Some singles }
    requires first_small { IsUpTo (2 ^ 126) (Some first) }
    requires singles_small { IsUpTo (2 ^ 63) (Some singles) }
    ensures { IsFirstWrong (length a.now.trans_keys) (λ place. IfAt a.now.trans_keys place (SingleSays a.now s place)) result }
{
    let keys = a.trans_keys.as_slice();
    let from = clipped(first, keys.len());
    let to = clipped(first + singles, keys.len());
    for place in from..to {
        if !is_single(a, s, first, place) {
            return Some(place);
        }
    }
    None
}

/// Whether a range does not hold any single key of its state. All are looked at, for each range.
fn is_apart(a: &Arrays, s: usize, first: i128, singles: i128, place: usize, low: i64) -> bool
    requires state { s < states a.now }
    requires first_is { sum_before (keys_of a.now) s ≡ Some first }
    requires singles_are { slice_get a.now.single_lengths s ≡ Some singles }
    requires first_small { IsUpTo (2 ^ 126) (Some first) }
    requires singles_small { IsUpTo (2 ^ 63) (Some singles) }
    ensures { IsTrue result ↔ ((r other : ℕ) → IsSingle a.now s r other → IsOutside a.now.trans_keys place low other) }
{
    let keys = a.trans_keys.as_slice();
    let from = clipped(first, keys.len());
    let to = clipped(first + singles, keys.len());
    for other in from..to {
        if !is_outside(keys, place, low, other) {
            return false;
        }
    }
    true
}

/// Whether a low is one of a range that does not hold any single key; of a high nothing is said.
fn is_low_apart(
    a: &Arrays,
    s: usize,
    first: i128,
    singles: i128,
    p: u128,
    place: usize,
    key: i64,
) -> bool
    requires state { s < states a.now }
    requires first_is { sum_before (keys_of a.now) s ≡ Some first }
    requires singles_are { slice_get a.now.single_lengths s ≡ Some singles }
    requires first_small { IsUpTo (2 ^ 126) (Some first) }
    requires singles_small { IsUpTo (2 ^ 63) (Some singles) }
    ensures { IsTrue result ↔ (p % 2 ≡ 0 → (r other : ℕ) → IsSingle a.now s r other → IsOutside a.now.trans_keys place key other) }
{
    if p % 2 == 1 {
        return true;
    }
    is_apart(a, s, first, singles, place, key)
}

/// Whether what is said of an end of a range of the state holds, where these begin behind its single keys.
fn is_end_key(a: &Arrays, s: usize, first: i128, singles: i128, place: usize, key: i64) -> bool
    requires state { s < states a.now }
    requires first_is { sum_before (keys_of a.now) s ≡ Some first }
    requires singles_are { slice_get a.now.single_lengths s ≡ Some singles }
    requires first_small { IsUpTo (2 ^ 126) (Some first) }
    requires singles_small { IsUpTo (2 ^ 63) (Some singles) }
    requires from { (first +ℤ singles) ≤ℤ pos place }
    requires to { IsSomeAnd (slice_get a.now.range_lengths s) (λ ranges. pos place <ℤ ((first +ℤ singles) +ℤ (ranges +ℤ ranges))) }
    ensures { IsTrue result ↔ EndSays a.now s place key }
{
    let p = offset(place, first + singles);
    if !is_key(a, key) {
        return false;
    }
    if !ascends(a, p, place, key) {
        return false;
    }
    is_low_apart(a, s, first, singles, p, place, key)
}

/// The same of the key at the place, if it is there.
fn is_end(a: &Arrays, s: usize, first: i128, singles: i128, place: usize) -> bool
    requires state { s < states a.now }
    requires first_is { sum_before (keys_of a.now) s ≡ Some first }
    requires singles_are { slice_get a.now.single_lengths s ≡ Some singles }
    requires first_small { IsUpTo (2 ^ 126) (Some first) }
    requires singles_small { IsUpTo (2 ^ 63) (Some singles) }
    requires from { (first +ℤ singles) ≤ℤ pos place }
    requires to { IsSomeAnd (slice_get a.now.range_lengths s) (λ ranges. pos place <ℤ ((first +ℤ singles) +ℤ (ranges +ℤ ranges))) }
    ensures { IsTrue result ↔ IfAt a.now.trans_keys place (EndSays a.now s place) }
{
    match a.trans_keys.get(place) {
        Some(key) => is_end_key(a, s, first, singles, place, *key),
        None => true,
    }
}

/// The first wrong end of a state's ranges.
fn wrong_end(a: &Arrays, s: usize, first: i128, singles: i128, ranges: i128) -> Option<usize>
    requires state { s < states a.now }
    requires first_is { sum_before (keys_of a.now) s ≡ Some first }
    requires singles_are { slice_get a.now.single_lengths s ≡ Some singles }
    requires ranges_are { slice_get a.now.range_lengths s ≡ Some ranges }
    requires first_small { IsUpTo (2 ^ 126) (Some first) }
    requires singles_small { IsUpTo (2 ^ 63) (Some singles) }
    requires ranges_small { IsUpTo (2 ^ 63) (Some ranges) }
    ensures { IsFirstWrong (length a.now.trans_keys) (λ place. IfAt a.now.trans_keys place (EndSays a.now s place)) result }
{
    let keys = a.trans_keys.as_slice();
    let from = clipped(first + singles, keys.len());
    let to = clipped(first + singles + (ranges + ranges), keys.len());
    for place in from..to {
        if !is_end(a, s, first, singles, place) {
            return Some(place);
        }
    }
    None
}

/// The first wrong key of a state, where the sum of the keys before it is known.
fn wrong_in_state(a: &Arrays, s: usize, place: Option<i128>) -> Option<usize>
    requires state { s < states a.now }
    requires place_is { place ≡ sum_before (keys_of a.now) s }
    requires small { IsUpTo (2 ^ 126) place }
    ensures { IsFirstWrong (length a.now.trans_keys) (λ place. IfAt a.now.trans_keys place (StateSays a.now s place)) result }
{
    let first = place?;
    let singles = number_at(a.single_lengths.as_slice(), s)?;
    let single = wrong_single(a, s, first, singles);
    match number_at(a.range_lengths.as_slice(), s) {
        Some(ranges) => lesser(single, wrong_end(a, s, first, singles, ranges)),
        None => single,
    }
}

/// The first wrong key of all states.
fn wrong_key(a: &Arrays) -> Option<usize>
    ensures { IsFirstWrong (length a.now.trans_keys) (λ place. IfAt a.now.trans_keys place (StatesSay a.now (states a.now) place)) result }
{
    let mut wrong: Option<usize> = None;
    let mut place: Option<i128> = Some(0);
    for s in 0..a.key_offsets.as_slice().len() {
        wrong = lesser(wrong, wrong_in_state(a, s, place));
        place = longer(place, keys_of_state(a, s), s);
    }
    wrong
}

/// How many places the keys of all states take.
fn keys_of_all(a: &Arrays) -> Option<i128>
    ensures value { result ≡ keys_end a.now }
    ensures small { IsUpTo (2 ^ 126) result }
{
    let mut place: Option<i128> = Some(0);
    for s in 0..a.key_offsets.as_slice().len() {
        place = longer(place, keys_of_state(a, s), s);
    }
    place
}

/// Whether a place is there and due, and 0 where it is the closing one.
fn is_closed(a: &Arrays, end: Option<i128>, place: usize) -> bool
    requires end_is { end ≡ keys_end a.now }
    requires small { IsUpTo (2 ^ 126) end }
    ensures { IsTrue result ↔ IsClosed a.now place }
{
    match a.trans_keys.get(place) {
        Some(key) => is_due(end, place, a.trans_keys.len())
            && (*key == 0 || !is_closing(end, place)),
        None => false,
    }
}

/// The first place that is missing, not due, or closes by another number than 0.
fn wrong_closing(a: &Arrays) -> Option<usize>
    ensures { IsFirstWrong (span a.now ArrayName.TransKeys) (IsClosed a.now) result }
{
    let has = a.trans_keys.len();
    let end = keys_of_all(a);
    for place in 0..has {
        if !is_closed(a, end, place) {
            return Some(place);
        }
    }
    if is_due(end, has, has) {
        Some(has)
    } else {
        None
    }
}

/// The first wrong key.
pub(crate) fn in_trans_keys(a: &Arrays) -> Option<usize>
    requires { SoundBefore a.now 2 }
    ensures { FirstWrong a.now ArrayName.TransKeys result }
{
    lesser(wrong_key(a), wrong_closing(a))
}
