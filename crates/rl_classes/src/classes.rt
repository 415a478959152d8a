//! The ranges of each class.
ghost use Rattle.std.specs.Prelude.{◌≡◌, ◌≢◌, ◌<◌, ◌≤◌, ◌+◌, ◌^◌, ◌∷◌, ◌++◌, [], Some, AllPairs, length, max, slice_get, slice_set, slice_index_or, IfOk};
ghost use Rattle.rl_classes.specs.Sets.{GoesOn};
ghost use Rattle.rl_classes.specs.Classes.{room_for, Sorts};

use crate::pieces::Piece;
use crate::steps::push;
use indexmap::IndexSet;
use rl_types::{KeyRange, List, Memory};
use std::alloc::Global;

/// Pieces numbered by their classes, and the ranges of each class.
#[derive(Drop)]
pub(crate) struct Sorted {
    pub pieces: Vec<Piece>,
    pub classes: Vec<List<KeyRange>>,
}

/// The class of a number: how many other numbers came before it.
fn class_of_number(table: &mut IndexSet<u32>, number: u32) -> Result<u32, Memory>
    requires { length table.old.keys < 2 ^ 32 }
    ensures class { IfOk result (λ n. slice_get table.new.keys n ≡ Some number) }
    ensures goes_on { IfOk result (λ _. GoesOn table.old.keys table.new.keys) }
    ensures distinct { IfOk result (λ _. AllPairs (λ p q. p ≢ q) table.new.keys) }
    ensures one_more { IfOk result (λ _. length table.new.keys ≤ length table.old.keys + 1) }
    ensures needed { IfOk result (λ n. length table.new.keys ≤ max (length table.old.keys) (n + 1)) }
{
    match table.insert_full(number) {
        Ok((index, _)) => Ok(index as u32),
        Err(_) => Err(Memory),
    }
}

/// One more empty list, where there are fewer than so many.
fn make_room(alloc: Global, classes: &mut Vec<List<KeyRange>>, count: usize) -> Result<(), Memory>
    ensures { IfOk result (λ _. classes.new.items ≡ room_for count classes.old.items) }
{
    if classes.len() < count {
        push(classes, List::new(alloc))?;
    }
    Ok(())
}

/// Puts a range at the end of a class.
fn add_range(classes: &mut Vec<List<KeyRange>>, class: usize, range: KeyRange) -> Result<(), Memory>
    requires { class < length classes.old.items }
    ensures { IfOk result (λ _. classes.new.items ≡ slice_set classes.old.items class (slice_index_or classes.old.items class [] ++ range ∷ [])) }
{
    let ranges = &mut classes[class];
    match ranges.push(range) {
        Ok(()) => Ok(()),
        Err(_) => Err(Memory),
    }
}

/// The classes of pieces: those with equal numbers are one.
pub(crate) fn classes_of(alloc: Global, pieces: &[Piece]) -> Result<Sorted, Memory>
    requires { length pieces.now < 2 ^ 32 }
    ensures { IfOk result (Sorts pieces.now) }
{
    let mut table = IndexSet::new(alloc);
    let mut classes = Vec::new(alloc);
    let mut numbered = Vec::new(alloc);
    for piece in pieces {
        let class = class_of_number(&mut table, piece.number)?;
        make_room(alloc, &mut classes, table.len())?;
        add_range(&mut classes, class as usize, piece.range)?;
        push(
            &mut numbered,
            Piece {
                range: piece.range,
                number: class,
            },
        )?;
    }
    Ok(Sorted {
        pieces: numbered,
        classes,
    })
}
