//! The lists of actions and the numbers of actions, by first use.
ghost use Rattle.std.specs.Prelude.{◌≡◌, ◌+◌, ◌∷◌, ◌++◌, [], List, Some, ◌<◌, slice_get, pos, length, map, nat_eq, IfOk};
ghost use Rattle.std.specs.List.{flat_map, list_any};
ghost use Rattle.std.specs.Option.{option_copied};
ghost use Rattle.rl_types.specs.declared.numbers.ActionId.{ActionId};
ghost use Rattle.rl_layout.specs.Books.{is_empty, with_list, with_lists, list_of, uses_of, lists_of, place_from, place_in, with_actions, order_of, number_in, members_of, elements_of, actions_of};
ghost use Rattle.indexmap.specs.IndexSet.{insert_key};
ghost use Rattle.rl_layout.specs.Runs.{same_actions};
ghost use Rattle.rl_layout.specs.Told.{told};

use crate::cells::{number, steps_of};
use crate::lists::push;
use crate::runs::same_actions;
use indexmap::IndexSet;
use rl_minimal::{MinEdge, MinState};
use rl_types::{ActionId, List as Items, Memory};
use std::alloc::Global;

// Whether the list is among those.
fn has_list(lists: &[&[ActionId]], list: &[ActionId]) -> bool
    ensures { result ≡ list_any (same_actions list.now) (told lists.now) }
{
    for l in lists {
        if same_actions(list, l) {
            return true;
        }
    }
    false
}

// Adds a list, unless it is empty or there.
fn add_list<'a>(lists: &mut Vec<&'a [ActionId]>, list: &'a [ActionId]) -> Result<(), Memory>
    ensures { IfOk result (λ _. told lists.new.items ≡ with_list (told lists.old.items) list.now) }
{
    if list.is_empty() || has_list(lists, list) {
        return Ok(());
    }
    push(lists, list)?;
    Ok(())
}

/// The list of a step; empty where there is none.
pub(crate) fn list_of<'a>(step: Option<&'a MinEdge>) -> &'a [ActionId]
    ensures { result.now ≡ list_of (option_copied step.entry) }
{
    match step {
        Some(e) => e.list.as_slice(),
        None => &[],
    }
}

// Adds the lists of steps.
fn add_step_lists<'a>(
    lists: &mut Vec<&'a [ActionId]>,
    steps: &[Option<&'a MinEdge>],
) -> Result<(), Memory>
    ensures { IfOk result (λ _. told lists.new.items ≡ with_lists (told lists.old.items) (map list_of (map option_copied steps.now))) }
{
    for step in steps {
        add_list(lists, list_of(*step))?;
    }
    Ok(())
}

// Adds the lists of a state.
fn add_uses<'a>(
    alloc: Global,
    lists: &mut Vec<&'a [ActionId]>,
    state: &'a MinState,
) -> Result<(), Memory>
    ensures { IfOk result (λ _. told lists.new.items ≡ with_lists (told lists.old.items) (uses_of state.now)) }
{
    let steps = steps_of(alloc, state)?;
    add_list(lists, state.from.as_slice())?;
    add_list(lists, state.to.as_slice())?;
    add_list(lists, state.eof.as_slice())?;
    add_list(lists, state.error.as_slice())?;
    add_list(lists, state.token.as_slice())?;
    add_step_lists(lists, &steps)?;
    Ok(())
}

/// The lists of all states, each once, in the order of first use.
pub(crate) fn lists_of<'a>(
    alloc: Global,
    states: &'a [MinState],
) -> Result<Vec<&'a [ActionId]>, Memory>
    ensures { IfOk result (λ v. told v.items ≡ lists_of states.now) }
{
    let mut lists = Vec::new(alloc);
    for state in states {
        add_uses(alloc, &mut lists, state)?;
    }
    Ok(lists)
}

// The place behind one, and behind so many more.
fn place_behind(place: usize, count: usize) -> Result<usize, Memory>
    ensures { IfOk result (λ n. n ≡ place + count + 1) }
{
    match place.checked_add(count) {
        Some(last) => match last.checked_add(1) {
            Some(next) => Ok(next),
            None => Err(Memory),
        },
        None => Err(Memory),
    }
}

// The place of a list, from 1.
fn place_from(lists: &[&[ActionId]], list: &[ActionId]) -> Result<usize, Memory>
    ensures { IfOk result (λ n. n ≡ place_from 1 (told lists.now) list.now) }
{
    let mut place: usize = 1;
    for l in lists {
        if same_actions(list, l) {
            return Ok(place);
        }
        place = place_behind(place, l.len())?;
    }
    Ok(0)
}

/// The number of a list; the empty one has place 0.
pub(crate) fn place_in(lists: &[&[ActionId]], list: &[ActionId]) -> Result<usize, Memory>
    ensures { IfOk result (λ n. n ≡ place_in (told lists.now) list.now) }
{
    if list.is_empty() {
        return Ok(0);
    }
    let place = place_from(lists, list)?;
    Ok(place)
}

// Adds an action, unless it is there.
fn add_action(order: &mut IndexSet<u32>, action: ActionId) -> Result<(), Memory>
    ensures { IfOk result (λ _. order.new.keys ≡ insert_key nat_eq order.old.keys action.0) }
{
    match order.insert(action.0) {
        Ok(_) => Ok(()),
        Err(_) => Err(Memory),
    }
}

// Adds the actions of a list.
fn add_actions(order: &mut IndexSet<u32>, list: &[ActionId]) -> Result<(), Memory>
    ensures { IfOk result (λ _. order.new.keys ≡ with_actions order.old.keys list.now) }
{
    for action in list {
        add_action(order, *action)?;
    }
    Ok(())
}

/// The actions in the order of their first places in the lists.
pub(crate) fn order_of(alloc: Global, lists: &[&[ActionId]]) -> Result<IndexSet<u32>, Memory>
    ensures { IfOk result (λ s. s.keys ≡ order_of (told lists.now)) }
{
    let mut order = IndexSet::new(alloc);
    for list in lists {
        add_actions(&mut order, list)?;
    }
    Ok(order)
}

// The action at a place of the order.
fn action_at(order: &IndexSet<u32>, i: usize) -> u32
    requires { i < length order.now.keys }
    ensures { slice_get order.now.keys i ≡ Some result }
{
    match order.get_index(i) {
        Some(action) => *action,
        None => 0,
    }
}

/// The actions of an order, one after another.
pub(crate) fn listed(alloc: Global, order: &IndexSet<u32>) -> Result<Vec<u32>, Memory>
    ensures { IfOk result (λ v. v.items ≡ order.now.keys) }
{
    let mut actions = Vec::new(alloc);
    for i in 0..order.len() {
        push(&mut actions, action_at(order, i))?;
    }
    Ok(actions)
}

// The number of an action, from 1.
fn number_in(order: &IndexSet<u32>, action: u32) -> Result<i64, Memory>
    ensures { IfOk result (λ z. z ≡ pos (number_in order.now.keys action)) }
{
    match order.get_index_of(&action) {
        Some(i) => {
            let next = place_behind(i, 0)?;
            number(next)
        }
        None => Ok(0),
    }
}

// Puts the members of a list at the end.
fn push_members(
    elements: &mut Vec<i64>,
    order: &IndexSet<u32>,
    list: &[ActionId],
) -> Result<(), Memory>
    ensures { IfOk result (λ _. elements.new.items ≡ elements.old.items ++ members_of order.now.keys list.now) }
{
    for action in list {
        let place = number_in(order, action.0)?;
        push(elements, place)?;
    }
    Ok(())
}

// Puts a list at the end, as its length and its members.
fn push_elements(
    elements: &mut Vec<i64>,
    order: &IndexSet<u32>,
    list: &[ActionId],
) -> Result<(), Memory>
    ensures { IfOk result (λ _. elements.new.items ≡ elements.old.items ++ elements_of order.now.keys list.now) }
{
    push(elements, number(list.len())?)?;
    push_members(elements, order, list)?;
    Ok(())
}

/// All lists, one after another.
pub(crate) fn actions_of(
    alloc: Global,
    order: &IndexSet<u32>,
    lists: &[&[ActionId]],
) -> Result<Items<i64>, Memory>
    ensures { IfOk result (λ v. v ≡ actions_of order.now.keys (told lists.now)) }
{
    let mut elements = Vec::new(alloc);
    push(&mut elements, 0)?;
    for list in lists {
        push_elements(&mut elements, order, list)?;
    }
    Ok(Items::from_vec(elements))
}
