// Literals, sets and regular expressions.
ghost use Rattle.std.specs.Prelude.{◌≡◌, ◌+◌, ◌-◌, ◌≤◌, ◌<◌, ◌^◌, ◌∷◌, [], length, MatchOption, IfOk, OnOk};
ghost use Rattle.rl_automata.specs.Nodes as n;
ghost use Rattle.rl_rewrite.specs.Plain as p;
ghost use Rattle.rl_rewrite.specs.Walk as w;
ghost use Rattle.rl_rewrite.specs.Sizes.{nodes};
ghost use Rattle.rl_rewrite.specs.Steps.{placed_of, AreFew, HasRoom, character_made, item_made, items_behind};

use crate::counts::{Counts, next};
use crate::placed::{Pairing, Placed, pair, single, star};
use rl_automata::Tree;
use rl_draft::{Item, Leaf};
use rl_types::{KeyRange, List, Place};
use std::alloc::{AllocError, Global};

fn set(alloc: Global, ranges: &List<KeyRange>, at: Place) -> Result<Placed, AllocError>
    ensures { IfOk result (λ r. placed_of r ≡ w.single (n.Set ranges.now) at) }
{
    let ranges = List::from_slice(alloc, ranges.as_slice())?;
    single(alloc, Tree::Set(ranges), at)
}

// One character, or the empty word.
fn character(alloc: Global, item: &Item, at: Place) -> Result<Placed, AllocError>
    ensures { IfOk result (λ r. placed_of r ≡ character_made item.now.ranges at) }
{
    match &item.ranges {
        None => single(alloc, Tree::Null, at),
        Some(ranges) => set(alloc, ranges, at),
    }
}

fn walk_item(
    alloc: Global,
    item: &Item,
    at: Place,
    counts: &mut Counts,
) -> Result<Placed, AllocError>
    requires stamps { counts.old.stamp < 2 ^ 32 - 1 }
    requires few { AreFew counts.old }
    ensures tree { IfOk result (λ r. (placed_of r, counts.new) ≡ item_made item.now at counts.old) }
    ensures stamp { OnOk result (counts.new.stamp ≤ counts.old.stamp + 1) }
    ensures few { OnOk result (AreFew counts.new) }
{
    let x = character(alloc, item, at)?;
    if item.starred {
        let base = next(counts);
        star(alloc, x, base, at)
    } else {
        Ok(x)
    }
}

// The first item, and those behind it.
pub fn first_item(items: &[Item]) -> Option<(&Item, &[Item])>
    ensures { MatchOption result (items.now ≡ []) (λ x. items.now ≡ x.0.now ∷ x.1.now) }
{
    match items {
        [] => None,
        [first, rest @ ..] => Some((first, rest)),
    }
}

// Items behind a tree.
fn walk_items(
    alloc: Global,
    items: &[Item],
    at: Place,
    x: Placed,
    counts: &mut Counts,
) -> Result<Placed, AllocError>
    requires stamps { counts.old.stamp + length items.now < 2 ^ 32 - 1 }
    requires few { AreFew counts.old }
    ensures tree { IfOk result (λ r. (placed_of r, counts.new) ≡ items_behind at items.now (placed_of x) counts.old) }
    ensures stamp { OnOk result (counts.new.stamp ≤ counts.old.stamp + length items.now) }
    ensures few { OnOk result (AreFew counts.new) }
{
    let mut x = x;
    for item in items {
        let y = walk_item(alloc, item, at, counts)?;
        x = pair(alloc, Pairing::Then, x, y, at)?;
    }
    Ok(x)
}

#[tactic(auto, using(crate::proofs::RowLaws::walk_row_is))]
fn walk_row(
    alloc: Global,
    items: &[Item],
    at: Place,
    counts: &mut Counts,
) -> Result<Placed, AllocError>
    requires stamps { counts.old.stamp + length items.now < 2 ^ 32 - 1 }
    requires few { AreFew counts.old }
    ensures tree { IfOk result (λ r. (placed_of r, counts.new) ≡ w.walk (p.row items.now at) counts.old) }
    ensures stamp { OnOk result (counts.new.stamp ≤ counts.old.stamp + length items.now) }
    ensures few { OnOk result (AreFew counts.new) }
{
    match first_item(items) {
        None => single(alloc, Tree::Null, at),
        Some((first, rest)) => {
            let x = walk_item(alloc, first, at, counts)?;
            let r = walk_items(alloc, rest, at, x, counts)?;
            Ok(r)
        }
    }
}

// The tree of a leaf.
#[tactic(auto, using(crate::proofs::RowLaws::row_items))]
pub fn walk_leaf(
    alloc: Global,
    leaf: &Leaf,
    at: Place,
    counts: &mut Counts,
) -> Result<Placed, AllocError>
    requires room { HasRoom counts.old (nodes (p.leaf_plain leaf.now at)) }
    ensures tree { IfOk result (λ r. (placed_of r, counts.new) ≡ w.walk (p.leaf_plain leaf.now at) counts.old) }
    ensures stamp { OnOk result (counts.new.stamp ≤ counts.old.stamp + nodes (p.leaf_plain leaf.now at)) }
    ensures few { OnOk result (AreFew counts.new) }
{
    match leaf {
        Leaf::Set(ranges) => set(alloc, ranges, at),
        Leaf::Null => single(alloc, Tree::Null, at),
        Leaf::Nothing => single(alloc, Tree::Nothing, at),
        Leaf::Row(items) => walk_row(alloc, items.as_slice(), at, counts),
    }
}
