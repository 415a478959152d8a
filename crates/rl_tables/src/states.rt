//! The arrays that are indexed by state, but for the offsets.
ghost use Rattle.std.specs.Prelude.{◌≡◌, ◌≢◌, ◌<◌, ◌↔◌, IsTrue, pos, length};
ghost use Rattle.rl_arrays.specs.Words.{natural, IfAt};
ghost use Rattle.rl_arrays.specs.Rules.{LengthSays, ListSays, EndListSays, TokenListSays, KindSays, IsHome, HomeSays};
ghost use Rattle.rl_arrays.specs.Valid.{FirstWrong, Right};

use crate::lists::is_list;
use crate::numbers::{
    count_of, has_kind, is_at_most, is_below, is_between, is_state, may_have_kind,
};
use rl_arrays::{ArrayName, Arrays};

fn is_length(a: &Arrays, s: usize, n: i64) -> bool
    ensures { IsTrue result ↔ LengthSays a.now s n }
{
    if s == 0 || has_kind(a, s, 4, 4) {
        n == 0
    } else {
        n >= 0
    }
}

fn is_state_list(a: &Arrays, s: usize, number: i64) -> bool
    ensures { IsTrue result ↔ ListSays a.now s number }
{
    if s == 0 && number != 0 {
        return false;
    }
    is_list(a, number)
}

fn is_end_list(a: &Arrays, s: usize, number: i64) -> bool
    ensures { IsTrue result ↔ EndListSays a.now s number }
{
    if number != 0 && (s == 0 || has_kind(a, s, 1, 4)) {
        return false;
    }
    is_list(a, number)
}

fn is_token_list(a: &Arrays, s: usize, number: i64) -> bool
    ensures { IsTrue result ↔ TokenListSays a.now s number }
{
    if number != 0 && (s == 0 || !may_have_kind(a, s, 3, 4)) {
        return false;
    }
    is_list(a, number)
}

fn is_kind(a: &Arrays, s: usize, kind: i64) -> bool
    ensures { IsTrue result ↔ KindSays a.now s kind }
{
    if s == 0 && kind != 0 {
        return false;
    }
    if kind == 1 && !is_at_most(a.first_final, s) {
        return false;
    }
    if kind >= 2 && is_at_most(a.first_final, s) {
        return false;
    }
    is_between(0, 4, kind)
}

/// Whether the state, if its home is there, is its own home.
fn is_own_home(a: &Arrays, home: i64) -> bool
    ensures { IsTrue result ↔ IfAt a.now.homes (natural home) (λ other. other ≡ home) }
{
    match a.homes.get(count_of(home)) {
        Some(other) => *other == home,
        None => true,
    }
}

fn is_home(a: &Arrays, home: i64) -> bool
    ensures { IsTrue result ↔ IsHome a.now home }
{
    if !is_state(a, home) {
        return false;
    }
    if !may_have_kind(a, count_of(home), 1, 1) {
        return false;
    }
    is_own_home(a, home)
}

fn is_home_of(a: &Arrays, s: usize, home: i64) -> bool
    ensures { IsTrue result ↔ HomeSays a.now s home }
{
    if has_kind(a, s, 0, 0) && home != 0 {
        return false;
    }
    if has_kind(a, s, 1, 4) {
        is_home(a, home)
    } else {
        true
    }
}

/// The first wrong number of single keys.
pub(crate) fn in_single_lengths(a: &Arrays) -> Option<usize>
    ensures { FirstWrong a.now ArrayName.SingleLengths result }
{
    let states = a.key_offsets.len();
    for (s, n) in a.single_lengths.as_slice().iter().enumerate() {
        if s >= states || !is_length(a, s, *n) {
            return Some(s);
        }
    }
    if a.single_lengths.len() < states {
        Some(a.single_lengths.len())
    } else {
        None
    }
}

/// The first wrong number of ranges.
pub(crate) fn in_range_lengths(a: &Arrays) -> Option<usize>
    ensures { FirstWrong a.now ArrayName.RangeLengths result }
{
    let states = a.key_offsets.len();
    for (s, n) in a.range_lengths.as_slice().iter().enumerate() {
        if s >= states || !is_length(a, s, *n) {
            return Some(s);
        }
    }
    if a.range_lengths.len() < states {
        Some(a.range_lengths.len())
    } else {
        None
    }
}

/// The first wrong from-state list.
pub(crate) fn in_from_lists(a: &Arrays) -> Option<usize>
    ensures { FirstWrong a.now ArrayName.FromLists result }
{
    let states = a.key_offsets.len();
    for (s, number) in a.from_lists.as_slice().iter().enumerate() {
        if s >= states || !is_state_list(a, s, *number) {
            return Some(s);
        }
    }
    if a.from_lists.len() < states {
        Some(a.from_lists.len())
    } else {
        None
    }
}

/// The first wrong to-state list.
pub(crate) fn in_to_lists(a: &Arrays) -> Option<usize>
    ensures { FirstWrong a.now ArrayName.ToLists result }
{
    let states = a.key_offsets.len();
    for (s, number) in a.to_lists.as_slice().iter().enumerate() {
        if s >= states || !is_state_list(a, s, *number) {
            return Some(s);
        }
    }
    if a.to_lists.len() < states {
        Some(a.to_lists.len())
    } else {
        None
    }
}

/// The first wrong end-of-file list.
pub(crate) fn in_eof_lists(a: &Arrays) -> Option<usize>
    ensures { FirstWrong a.now ArrayName.EofLists result }
{
    let states = a.key_offsets.len();
    for (s, number) in a.eof_lists.as_slice().iter().enumerate() {
        if s >= states || !is_end_list(a, s, *number) {
            return Some(s);
        }
    }
    if a.eof_lists.len() < states {
        Some(a.eof_lists.len())
    } else {
        None
    }
}

/// The first wrong error list.
pub(crate) fn in_error_lists(a: &Arrays) -> Option<usize>
    ensures { FirstWrong a.now ArrayName.ErrorLists result }
{
    let states = a.key_offsets.len();
    for (s, number) in a.error_lists.as_slice().iter().enumerate() {
        if s >= states || !is_end_list(a, s, *number) {
            return Some(s);
        }
    }
    if a.error_lists.len() < states {
        Some(a.error_lists.len())
    } else {
        None
    }
}

/// The first wrong list of a token.
pub(crate) fn in_accept_lists(a: &Arrays) -> Option<usize>
    ensures { FirstWrong a.now ArrayName.AcceptLists result }
{
    let states = a.key_offsets.len();
    for (s, number) in a.accept_lists.as_slice().iter().enumerate() {
        if s >= states || !is_token_list(a, s, *number) {
            return Some(s);
        }
    }
    if a.accept_lists.len() < states {
        Some(a.accept_lists.len())
    } else {
        None
    }
}

/// The first wrong kind.
pub(crate) fn in_state_kinds(a: &Arrays) -> Option<usize>
    ensures { FirstWrong a.now ArrayName.StateKinds result }
{
    let states = a.key_offsets.len();
    for (s, kind) in a.state_kinds.as_slice().iter().enumerate() {
        if s >= states || !is_kind(a, s, *kind) {
            return Some(s);
        }
    }
    if a.state_kinds.len() < states {
        Some(a.state_kinds.len())
    } else {
        None
    }
}

/// Whether a state's home is there and right.
fn is_right_home(a: &Arrays, s: usize) -> bool
    ensures { IsTrue result ↔ Right a.now ArrayName.Homes s }
{
    match a.homes.get(s) {
        Some(home) => s < a.key_offsets.len() && is_home_of(a, s, *home),
        None => false,
    }
}

/// The first wrong home.
pub(crate) fn in_homes(a: &Arrays) -> Option<usize>
    ensures { FirstWrong a.now ArrayName.Homes result }
{
    for s in 0..a.homes.len() {
        if !is_right_home(a, s) {
            return Some(s);
        }
    }
    if a.homes.len() < a.key_offsets.len() {
        Some(a.homes.len())
    } else {
        None
    }
}
