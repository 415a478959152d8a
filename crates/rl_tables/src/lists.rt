//! The lists of actions, and the numbers of lists.
ghost use Rattle.std.specs.Prelude.{◌≡◌, ◌<◌, ◌+◌, ◌^◌, ◌↔◌, IsTrue, length};
ghost use Rattle.rl_arrays.specs.Words.{natural, number_at, IfAt};
ghost use Rattle.rl_arrays.specs.Lists.{left_at, left_next, IsList};
ghost use Rattle.rl_arrays.specs.Rules.{ActionSays};
ghost use Rattle.rl_arrays.specs.Valid.{FirstWrong};

use crate::numbers::{count_of, is_action};
use rl_arrays::{ArrayName, Arrays};

/// Whether what is said of an element of the lists holds, where so many members are to come.
fn is_list_element(a: &Arrays, place: usize, left: usize, n: i64) -> bool
    requires { left ≡ left_at a.now.actions place }
    ensures { IsTrue result ↔ ActionSays a.now place n }
{
    if place == 0 && n != 0 {
        return false;
    }
    if left == 0 { n >= 0 } else { is_action(a, n) }
}

/// How many members are still to come behind an element.
fn left_behind(left: usize, n: i64) -> usize
    requires { left < 2 ^ 63 }
    ensures value { result ≡ left_next left (natural n) }
    ensures small { result < 2 ^ 63 }
{
    if left == 0 { count_of(n) } else { left - 1 }
}

/// The first wrong element of the lists.
#[tactic(auto, unfolding(rl_arrays::specs::Lists::left_at))]
pub(crate) fn in_actions(a: &Arrays) -> Option<usize>
    ensures { FirstWrong a.now ArrayName.Actions result }
{
    if a.actions.is_empty() {
        return Some(0);
    }
    let mut left: usize = 0;
    for (place, n) in a.actions.as_slice().iter().enumerate() {
        if !is_list_element(a, place, left, *n) {
            return Some(place);
        }
        left = left_behind(left, *n);
    }
    if left > 0 {
        Some(a.actions.len())
    } else {
        None
    }
}

/// Whether a list begins at a place. It walks from the first one.
#[tactic(auto, unfolding(rl_arrays::specs::Lists::left_at))]
fn begins(lists: &[i64], place: usize) -> bool
    requires { place < length lists.now }
    ensures { IsTrue result ↔ (left_at lists.now place ≡ 0) }
{
    let mut left: usize = 0;
    for i in 0..place {
        left = left_behind(left, lists[i]);
    }
    left == 0
}

/// Whether the number is that of a list.
pub(crate) fn is_list(a: &Arrays, number: i64) -> bool
    ensures { IsTrue result ↔ IsList a.now.actions number }
{
    if number < 0 || count_of(number) >= a.actions.len() {
        return false;
    }
    begins(a.actions.as_slice(), count_of(number))
}
