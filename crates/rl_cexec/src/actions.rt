//! The actions of a source by their names, and those of from-state and to-state lists.
ghost use Rattle.std.specs.Prelude.{◌≡◌, ◌++◌, ◌+◌, ◌<◌, ◌^◌, ◌==◌, map, take, drop, flat_map, OnOk, IfOk, MatchOption, None, Some};
ghost use Rattle.std.specs.List.{list_any};
ghost use Rattle.rl_arrays.specs.Words.{natural, number_at};
ghost use Rattle.rl_arrays.specs.Lists.{members};
ghost use Rattle.rl_cexec.specs.Texts as texts;

use crate::names::is_text;
use rl_arrays::Arrays;
use rl_model::ActionDef;
use std::alloc::{AllocError, Global};

/// The action of a name.
pub(crate) fn action_named<'a>(actions: &'a [ActionDef], name: &[u8]) -> Option<&'a ActionDef>
    ensures { MatchOption result (texts.action_named actions.now name.now ≡ None) (λ d. texts.action_named actions.now name.now ≡ Some d.now) }
{
    for action in actions {
        if is_text(action.name.bytes(), name) {
            return Some(action);
        }
    }
    None
}

/// A number as a count; a negative one counts as 0.
fn count_of(n: i64) -> usize
    ensures value { result ≡ natural n }
    ensures small { result < 2 ^ 63 }
{
    if n < 0 { 0 } else { n as usize }
}

/// The count at a place; 0 where the element is missing or negative.
fn count_at(xs: &[i64], i: usize) -> usize
    ensures { result ≡ number_at xs.now i }
{
    match xs.get(i) {
        Some(n) => count_of(*n),
        None => 0,
    }
}

/// All from a place on.
#[tactic(auto, using(std::proofs::lemmas::List::drop_all))]
fn rest_from(xs: &[i64], from: usize) -> &[i64]
    ensures { result.now ≡ drop from xs.now }
{
    if from < xs.len() { &xs[from..] } else { &[] }
}

/// The first so many.
#[tactic(auto, using(std::proofs::lemmas::List::take_all))]
fn front(xs: &[i64], count: usize) -> &[i64]
    ensures { result.now ≡ take count xs.now }
{
    if count < xs.len() { &xs[..count] } else { xs }
}

/// The members of the list at a place.
fn members_at(actions: &[i64], place: usize) -> &[i64]
    requires { place < 2 ^ 63 }
    ensures { map natural result.now ≡ members actions.now place }
{
    front(rest_from(actions, place + 1), count_at(actions, place))
}

/// Puts the members of these lists at the end of what is found.
fn put_members(found: &mut Vec<i64>, actions: &[i64], lists: &[i64]) -> Result<(), AllocError>
    ensures { OnOk result (map natural found.new.items ≡ map natural found.old.items ++ flat_map (λ n. members actions.now (natural n)) lists.now) }
{
    for list in lists {
        found.extend_from_slice(members_at(actions, count_of(*list)))?;
    }
    Ok(())
}

/// The actions of all from-state and to-state lists.
pub(crate) fn turn_actions(alloc: Global, a: &Arrays) -> Result<Vec<i64>, AllocError>
    ensures { IfOk result (λ found. map natural found.items ≡ texts.turn_actions a.now) }
{
    let mut found = Vec::new(alloc);
    put_members(&mut found, a.actions.as_slice(), a.from_lists.as_slice())?;
    put_members(&mut found, a.actions.as_slice(), a.to_lists.as_slice())?;
    Ok(found)
}

/// Whether an action is among these.
pub(crate) fn is_among(found: &[i64], k: usize) -> bool
    ensures { result ≡ list_any (λ n. n == k) (map natural found.now) }
{
    for n in found {
        if count_of(*n) == k {
            return true;
        }
    }
    false
}
