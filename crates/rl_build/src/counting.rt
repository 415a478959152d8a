// Counting cells.
ghost use Rattle.std.specs.Prelude.{◌≡◌, ◌++◌, ◌∷◌, [], ◌+◌, ◌<◌, ◌≤◌, ℕ, List, IsTrue, IfOk, length};
ghost use Rattle.rl_types.specs.declared.alphabet.Alphabet.{Alphabet};
ghost use Rattle.rl_types.specs.KeyRange.{Range};
ghost use Rattle.rl_sets.specs.Sets.{In};
ghost use Rattle.rl_classes.specs.Sets.{range_count};
ghost use Rattle.rl_build.specs.Adds.{AddsAll, insert_all, AreCountedAgain, IsCopy};
ghost use Rattle.rl_build.specs.Cells.{AreCells, AreCounted, most_of};

use crate::cells::{Cells, KeySet};
use crate::leaves::{copied, copied_numbers, one_set, push, put_in_place};
use rl_classes::Segments;
use rl_types::{Alphabet, KeyRange, MOST_CELLS, Memory};
use std::alloc::Global;

// Whether the two sets have the same ranges.
fn is_same(a: &[KeyRange], b: &[KeyRange]) -> bool
    ensures { IsTrue result → a.now ≡ b.now }
{
    a == b
}

// Whether the set is among these.
fn has_set(sets: &[KeySet], set: &[KeyRange]) -> bool
    ensures { IsTrue result → In set.now sets.now }
{
    for s in sets {
        if is_same(s.as_slice(), set) {
            return true;
        }
    }
    false
}

// Adds the set, unless it is there, and says whether it was added.
fn add_set(sets: &mut Vec<KeySet>, set: KeySet) -> Result<bool, Memory>
    ensures { IfOk result (AddsAll sets.old.items (set ∷ []) sets.new.items) }
{
    if has_set(sets, set.as_slice()) {
        return Ok(false);
    }
    push(sets, set)?;
    Ok(true)
}

// Adds the sets that are not there, and says whether one was added.
fn add_sets(sets: &mut Vec<KeySet>, more: Vec<KeySet>) -> Result<bool, Memory>
    ensures { IfOk result (AddsAll sets.old.items more.items sets.new.items) }
{
    let mut added = false;
    for set in more {
        let is_new = add_set(sets, set)?;
        added = added || is_new;
    }
    Ok(added)
}

// Adds the conditions that are not there.
fn add_conditions(conditions: &mut Vec<u8>, more: &[u8]) -> Result<(), Memory>
    ensures { IfOk result (λ _. conditions.new.items ≡ insert_all more.now conditions.old.items) }
{
    let mut i = more.len();
    while i > 0 {
        i -= 1;
        put_in_place(conditions, more[i])?;
    }
    Ok(())
}

// How many key classes the sets make.
fn class_count(alloc: Global, alphabet: Alphabet, sets: &[KeySet]) -> Result<u32, Memory>
    requires { range_count sets.now ≤ 1073741823 }
    ensures count { IfOk result (AreCounted alphabet sets.now) }
    ensures some { IfOk result (λ n. 0 < n) }
{
    let segments = Segments::of(alloc, sets, alphabet)?;
    Ok(segments.count())
}

// How many key classes the sets make, where it was another number before some were added.
fn counted_again(
    alloc: Global,
    alphabet: Alphabet,
    sets: &[KeySet],
    added: bool,
    before: u32,
) -> Result<u32, Memory>
    requires few { range_count sets.now ≤ 1073741823 }
    requires some { 0 < before }
    ensures count { IfOk result (AreCountedAgain alphabet sets.now added before) }
    ensures some { IfOk result (λ n. 0 < n) }
{
    if added {
        return class_count(alloc, alphabet, sets);
    }
    Ok(before)
}

// The cells of an expression with these sets and without conditions.
fn cells_of(alloc: Global, alphabet: Alphabet, sets: Vec<KeySet>) -> Result<Cells, Memory>
    requires { range_count sets.items ≤ 1073741823 }
    ensures { IfOk result (AreCells alphabet sets.items []) }
{
    let classes = class_count(alloc, alphabet, &sets)?;
    Ok(Cells {
        sets,
        classes,
        conditions: Vec::new(alloc),
    })
}

// The cells of an expression without sets and conditions.
pub fn no_cells(alloc: Global, alphabet: Alphabet) -> Result<Cells, Memory>
    ensures { IfOk result (AreCells alphabet [] []) }
{
    cells_of(alloc, alphabet, Vec::new(alloc))
}

// The cells of one character of a set.
pub fn set_cells(alloc: Global, alphabet: Alphabet, set: &[KeyRange]) -> Result<Cells, Memory>
    requires { length set.now ≤ 25600000 }
    ensures { IfOk result (AreCells alphabet (set.now ∷ []) []) }
{
    let sets = one_set(alloc, set)?;
    let cells = cells_of(alloc, alphabet, sets)?;
    Ok(cells)
}

// The cells of an expression of two. Only where the second has a set that the first has not are key classes counted
// again.
fn extended(alloc: Global, alphabet: Alphabet, cells: Cells, more: Cells) -> Result<Cells, Memory>
    requires { range_count cells.sets.items + range_count more.sets.items ≤ 1073741823 }
    ensures cells { IfOk result (λ c. (xs ys : List (List Range)) (cs ds : List ℕ) → AreCells alphabet xs cs cells → AreCells alphabet ys ds more → AreCells alphabet (xs ++ ys) (cs ++ ds) c) }
    ensures few { IfOk result (λ c. range_count c.sets.items ≤ range_count cells.sets.items + range_count more.sets.items) }
{
    let Cells {
        mut sets,
        classes,
        mut conditions,
    } = cells;
    let added = add_sets(&mut sets, more.sets)?;
    add_conditions(&mut conditions, &more.conditions)?;
    let classes = counted_again(alloc, alphabet, &sets, added, classes)?;
    Ok(Cells {
        sets,
        classes,
        conditions,
    })
}

// The cells of an expression of two; the fewer sets are added to the more.
pub fn joined(alloc: Global, alphabet: Alphabet, a: Cells, b: Cells) -> Result<Cells, Memory>
    requires { range_count a.sets.items + range_count b.sets.items ≤ 1073741823 }
    ensures cells { IfOk result (λ c. (xs ys : List (List Range)) (cs ds : List ℕ) → AreCells alphabet xs cs a → AreCells alphabet ys ds b → AreCells alphabet (xs ++ ys) (cs ++ ds) c) }
    ensures few { IfOk result (λ c. range_count c.sets.items ≤ range_count a.sets.items + range_count b.sets.items) }
{
    if a.sets.len() < b.sets.len() {
        return extended(alloc, alphabet, b, a);
    }
    extended(alloc, alphabet, a, b)
}

// The cells of an expression with one more condition.
pub fn with_condition(cells: Cells, condition: u8) -> Result<Cells, Memory>
    ensures { IfOk result (λ c. (alphabet : Alphabet) (xs : List (List Range)) (cs : List ℕ) → AreCells alphabet xs cs cells → AreCells alphabet xs (condition ∷ cs) c) }
{
    let Cells {
        sets,
        classes,
        mut conditions,
    } = cells;
    put_in_place(&mut conditions, condition)?;
    Ok(Cells {
        sets,
        classes,
        conditions,
    })
}

// The same sets.
fn copied_sets(alloc: Global, sets: &[KeySet]) -> Result<Vec<KeySet>, Memory>
    ensures { IfOk result (λ v. v.items ≡ sets.now) }
{
    let mut copies: Vec<KeySet> = Vec::new(alloc);
    for set in sets {
        let copy = copied(alloc, set.as_slice())?;
        push(&mut copies, copy)?;
    }
    Ok(copies)
}

// The same cells.
pub fn copied_cells(alloc: Global, cells: &Cells) -> Result<Cells, Memory>
    ensures { IfOk result (IsCopy cells.now) }
{
    let sets = copied_sets(alloc, &cells.sets)?;
    let conditions = copied_numbers(alloc, &cells.conditions)?;
    Ok(Cells {
        sets,
        classes: cells.classes,
        conditions,
    })
}

// How many configurations have no more cells together than there may be.
pub fn most(cells: &Cells) -> u32
    ensures { result ≡ most_of cells.now }
{
    let conditions = cells.conditions.len();
    if conditions > 22 {
        return 0;
    }
    let width = u64::from(cells.classes) << conditions;
    (u64::from(MOST_CELLS) / width) as u32
}
