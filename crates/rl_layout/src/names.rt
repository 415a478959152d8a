//! The names, and the entries' states.
ghost use Rattle.std.specs.Prelude.{◌≡◌, ◌∷◌, [], pos, map, codes, IfOk, List, position};
ghost use Rattle.std.specs.Str.{bytes_eq};
ghost use Rattle.rl_types.specs.declared.numbers.ActionId.{ActionId};
ghost use Rattle.rl_model.specs.declared.spec.Entry.{Entry};
ghost use Rattle.rl_layout.specs.SpecArrays.{name_of, start_place, start_of};

use crate::lists::push;
use crate::statements::action_of;
use rl_model::{ActionDef, Entry};
use rl_types::{ActionId, List as Items, Memory, Name};
use std::alloc::Global;

/// A copy of a name.
pub(crate) fn copy_name(alloc: Global, name: &Name) -> Result<Name, Memory>
    ensures { IfOk result (λ n. n ≡ name.now) }
{
    match name.bytes().to_vec(alloc) {
        Ok(bytes) => Ok(Name::new(bytes)),
        Err(_) => Err(Memory),
    }
}

// The name of the action of this number.
fn name_of(alloc: Global, actions: &[ActionDef], action: u32) -> Result<Name, Memory>
    ensures { IfOk result (λ n. n ≡ name_of actions.now action) }
{
    match action_of(actions, action) {
        Some(a) => copy_name(alloc, &a.name),
        None => Ok(Name::new(Vec::new(alloc))),
    }
}

/// Element 0, and then the names of actions in an order.
pub(crate) fn action_names(
    alloc: Global,
    actions: &[ActionDef],
    order: &[u32],
) -> Result<Items<Name>, Memory>
    ensures { IfOk result (λ v. v ≡ [] ∷ map (name_of actions.now) order.now) }
{
    let mut names = Vec::new(alloc);
    push(&mut names, Name::new(Vec::new(alloc)))?;
    for action in order {
        let name = name_of(alloc, actions, *action)?;
        push(&mut names, name)?;
    }
    Ok(Items::from_vec(names))
}

/// Element 0, and then the names of conditions.
pub(crate) fn condition_names(
    alloc: Global,
    actions: &[ActionDef],
    conditions: &[ActionId],
) -> Result<Items<Name>, Memory>
    ensures { IfOk result (λ v. v ≡ [] ∷ map (λ a. name_of actions.now a.0) conditions.now) }
{
    let mut names = Vec::new(alloc);
    push(&mut names, Name::new(Vec::new(alloc)))?;
    for action in conditions {
        let name = name_of(alloc, actions, action.0)?;
        push(&mut names, name)?;
    }
    Ok(Items::from_vec(names))
}

/// Element 0, and then the names of entries.
pub(crate) fn entry_names(alloc: Global, entries: &[Entry]) -> Result<Items<Name>, Memory>
    ensures { IfOk result (λ v. v ≡ [] ∷ map (λ e. e.name) entries.now) }
{
    let mut names = Vec::new(alloc);
    push(&mut names, Name::new(Vec::new(alloc)))?;
    for entry in entries {
        let name = copy_name(alloc, &entry.name)?;
        push(&mut names, name)?;
    }
    Ok(Items::from_vec(names))
}

/// Element 0, and then the states of entries.
pub(crate) fn entry_states(alloc: Global, states: &[u32]) -> Result<Items<i64>, Memory>
    ensures { IfOk result (λ v. v ≡ pos 0 ∷ map pos states.now) }
{
    let mut elements = Vec::new(alloc);
    push(&mut elements, 0)?;
    for state in states {
        push(&mut elements, i64::from(*state))?;
    }
    Ok(Items::from_vec(elements))
}

// Whether the entry is `main`.
fn is_main(entry: &Entry) -> bool
    ensures { result ≡ bytes_eq (codes "main") entry.now.name }
{
    b"main".as_slice() == entry.name.bytes()
}

// The entry `main`, if there is one, from 0.
fn main_place(entries: &[Entry]) -> Option<usize>
    ensures { result ≡ position (λ e. bytes_eq (codes "main") e.name) entries.now }
{
    entries.iter().position(|e| is_main(e))
}

// The entry `main`, or the first one where none has that name, from 0.
fn start_place(entries: &[Entry]) -> usize
    ensures { result ≡ start_place entries.now }
{
    match main_place(entries) {
        Some(place) => place,
        None => 0,
    }
}

/// The state of the start entry.
pub(crate) fn start_of(entries: &[Entry], states: &[u32]) -> u32
    ensures { result ≡ start_of entries.now states.now }
{
    match states.get(start_place(entries)) {
        Some(state) => *state,
        None => 0,
    }
}
