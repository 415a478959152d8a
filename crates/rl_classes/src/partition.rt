//! Which keys the same sets hold.
ghost use Rattle.std.specs.Prelude.{◌≡◌, ◌≢◌, AllPairs, ◌<◌, ◌≤◌, ◌+◌, ◌^◌, [], ◌∷◌, Some, map, length, slice_get, IfOk};
ghost use Rattle.indexmap.specs.IndexSet.{keys};
ghost use Rattle.rl_classes.specs.Sets.{TellsSet, TellsSets, Renumbers, GoesOn, with_value, bit_of, range_count};

use crate::sets::of_ranges;
use crate::steps::{Step, Steps, merged, push};
use indexmap::IndexSet;
use rl_types::{KeyRange, List, Memory};
use std::alloc::Global;

/// The number of a pair: how many others came before it.
fn number_of(table: &mut IndexSet<(u32, u32)>, pair: (u32, u32)) -> Result<u32, Memory>
    requires { length table.old.keys < 2 ^ 32 }
    ensures number { IfOk result (λ n. slice_get table.new.keys n ≡ Some pair) }
    ensures goes_on { IfOk result (λ _. GoesOn table.old.keys table.new.keys) }
    ensures distinct { IfOk result (λ _. AllPairs (λ p q. p ≢ q) table.new.keys) }
    ensures one_more { IfOk result (λ _. length table.new.keys ≤ length table.old.keys + 1) }
{
    match table.insert_full(pair) {
        Ok((index, _)) => Ok(index as u32),
        Err(_) => Err(Memory),
    }
}

/// Numbers in place of pairs, the same number for equal pairs alone.
fn numbered(alloc: Global, pairs: &Steps<(u32, u32)>) -> Result<Steps<u32>, Memory>
    requires { length pairs.now.later.items < 2 ^ 31 }
    ensures { IfOk result (Renumbers pairs.now) }
{
    let mut table = IndexSet::new(alloc);
    let first = number_of(&mut table, pairs.first)?;
    let mut later = Vec::new(alloc);
    for step in &pairs.later {
        let value = number_of(&mut table, step.value)?;
        push(
            &mut later,
            Step {
                from: step.from,
                value,
            },
        )?;
    }
    Ok(Steps { first, later })
}

/// 1 for true and 0 for false.
fn bits(alloc: Global, set: &Steps<bool>) -> Result<Steps<u32>, Memory>
    ensures first { IfOk result (λ f. f.first ≡ bit_of set.now.first) }
    ensures later { IfOk result (λ f. f.later.items ≡ map (with_value bit_of) set.now.later.items) }
{
    let mut later = Vec::new(alloc);
    for step in &set.later {
        let value = if step.value { 1 } else { 0 };
        push(
            &mut later,
            Step {
                from: step.from,
                value,
            },
        )?;
    }
    let first = if set.first { 1 } else { 0 };
    Ok(Steps { first, later })
}

/// Which keys one set holds.
fn of_set(alloc: Global, set: &[KeyRange]) -> Result<Steps<u32>, Memory>
    ensures { IfOk result (TellsSets (set.now ∷ [])) }
{
    let told = of_ranges(alloc, set)?;
    let numbers = bits(alloc, &told)?;
    Ok(numbers)
}

/// Which keys the same sets hold.
pub(crate) fn separated(alloc: Global, sets: &[List<KeyRange>]) -> Result<Steps<u32>, Memory>
    requires { range_count sets.now ≤ 1073741823 }
    ensures { IfOk result (TellsSets sets.now) }
{
    match sets {
        [] => Ok(Steps {
            first: 0,
            later: Vec::new(alloc),
        }),
        [set] => of_set(alloc, set.as_slice()),
        _ => {
            let (front, back) = sets.split_at(sets.len() / 2);
            let left = separated(alloc, front)?;
            let right = separated(alloc, back)?;
            let pairs = merged(alloc, &left, &right)?;
            let numbers = numbered(alloc, &pairs)?;
            Ok(numbers)
        }
    }
}
