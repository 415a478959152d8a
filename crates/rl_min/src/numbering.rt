// The numbers of classes.
ghost use Rattle.std.specs.Prelude.{◌≡◌, ◌≤◌, ◌∷◌, ◌++◌, [], not, IfOk, length, map, if◌then◌else◌};
ghost use Rattle.rl_min.specs.Numbering.{has_class, with_class, listed, number_in, ArePicked, IsNumbering};

use crate::lists::push;
use indexmap::IndexSet;
use rl_types::Memory;
use std::alloc::Global;

// Classes, each once, and a state of each.
#[derive(Drop)]
struct Met {
    classes: IndexSet<u32>,
    states: Vec<u32>,
}

// Puts the class behind the others, unless it is there. Whether it was not.
fn add_class(classes: &mut IndexSet<u32>, class: u32) -> Result<bool, Memory>
    ensures classes { IfOk result (λ _. classes.new.keys ≡ with_class classes.old.keys class) }
    ensures is_new { IfOk result (λ is_new. is_new ≡ not (has_class classes.old.keys class)) }
{
    match classes.insert(class) {
        Ok(is_new) => Ok(is_new),
        Err(_) => Err(Memory),
    }
}

// Adds the class of a state, and the state where its class is new.
fn meet(met: &mut Met, class: u32, state: u32) -> Result<(), Memory>
    ensures classes { IfOk result (λ _. met.new.classes.keys ≡ with_class met.old.classes.keys class) }
    ensures states { IfOk result (λ _. met.new.states.items
        ≡ if has_class met.old.classes.keys class then met.old.states.items else met.old.states.items ++ state ∷ []) }
{
    let is_new = add_class(&mut met.classes, class)?;
    if is_new {
        push(&mut met.states, state)?;
    }
    Ok(())
}

// The classes of states, in the order of their first states, and these states.
fn met_in(alloc: Global, classes: &[u32]) -> Result<Met, Memory>
    requires { length classes.now ≤ 2147483647 }
    ensures classes { IfOk result (λ met. met.classes.keys ≡ listed classes.now) }
    ensures states { IfOk result (λ met. ArePicked classes.now met.classes.keys met.states.items) }
{
    let mut met = Met {
        classes: IndexSet::new(alloc),
        states: Vec::new(alloc),
    };
    for (state, class) in classes.iter().enumerate() {
        meet(&mut met, *class, state as u32)?;
    }
    Ok(met)
}

// The number of a class, from 0; 0 where it is not there.
fn number_in(classes: &IndexSet<u32>, class: u32) -> u32
    requires { length classes.now.keys ≤ 2147483647 }
    ensures { result ≡ number_in classes.now.keys class }
{
    match classes.get_index_of(&class) {
        Some(i) => i as u32,
        None => 0,
    }
}

// The numbers of the classes of states.
fn numbers_of(alloc: Global, met: &IndexSet<u32>, classes: &[u32]) -> Result<Vec<u32>, Memory>
    requires { length met.now.keys ≤ 2147483647 }
    ensures { IfOk result (λ v. v.items ≡ map (number_in met.now.keys) classes.now) }
{
    let mut numbers = Vec::new(alloc);
    for class in classes {
        push(&mut numbers, number_in(met, *class))?;
    }
    Ok(numbers)
}

// For each state the number of its class, in the order of their first states, and for each number a state of the class.
#[derive(Drop)]
pub(crate) struct Numbering {
    pub numbers: Vec<u32>,
    pub states: Vec<u32>,
}

// The numbers of the classes of states.
pub(crate) fn numbered(alloc: Global, classes: &[u32]) -> Result<Numbering, Memory>
    requires { length classes.now ≤ 2147483647 }
    ensures { IfOk result (λ n. IsNumbering classes.now n.numbers.items n.states.items) }
{
    let met = met_in(alloc, classes)?;
    let numbers = numbers_of(alloc, &met.classes, classes)?;
    Ok(Numbering {
        numbers,
        states: met.states,
    })
}
