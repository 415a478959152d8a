// Copies of trees, and rows of them.
ghost use Rattle.std.specs.Prelude.{◌≡◌, ◌++◌, replicate, IfOk};
ghost use Rattle.rl_automata.specs.Nodes.{node_of};
ghost use Rattle.rl_rewrite.specs.Walk.{row as row_of};
ghost use Rattle.rl_rewrite.specs.Steps.{placed_of, appended};

use crate::placed::{Pairing, Placed, pair, single};
use rl_automata::Tree;
use rl_types::{List, Place};
use std::alloc::{AllocError, Global};

fn copy_tree(alloc: Global, t: &Tree) -> Result<Tree, AllocError>
    ensures { IfOk result (λ u. node_of u ≡ node_of t.now) }
{
    Ok(match t {
        Tree::Set(ranges) => Tree::Set(List::from_slice(alloc, ranges.as_slice())?),
        Tree::Null => Tree::Null,
        Tree::Nothing => Tree::Nothing,
        Tree::Union(a, b) => {
            let a = copy_tree(alloc, a)?;
            let b = copy_tree(alloc, b)?;
            Tree::Union(Box::new(alloc, a)?, Box::new(alloc, b)?)
        }
        Tree::And(a, b) => {
            let a = copy_tree(alloc, a)?;
            let b = copy_tree(alloc, b)?;
            Tree::And(Box::new(alloc, a)?, Box::new(alloc, b)?)
        }
        Tree::Minus(a, b) => {
            let a = copy_tree(alloc, a)?;
            let b = copy_tree(alloc, b)?;
            Tree::Minus(Box::new(alloc, a)?, Box::new(alloc, b)?)
        }
        Tree::Cat(a, b) => {
            let a = copy_tree(alloc, a)?;
            let b = copy_tree(alloc, b)?;
            Tree::Cat(Box::new(alloc, a)?, Box::new(alloc, b)?)
        }
        Tree::Star(a, base) => {
            let a = copy_tree(alloc, a)?;
            Tree::Star(Box::new(alloc, a)?, *base)
        }
        Tree::Enter(a, l) => {
            let a = copy_tree(alloc, a)?;
            Tree::Enter(Box::new(alloc, a)?, *l)
        }
        Tree::Finish(a, l) => {
            let a = copy_tree(alloc, a)?;
            Tree::Finish(Box::new(alloc, a)?, *l)
        }
        Tree::All(a, l) => {
            let a = copy_tree(alloc, a)?;
            Tree::All(Box::new(alloc, a)?, *l)
        }
        Tree::Leave(a, l) => {
            let a = copy_tree(alloc, a)?;
            Tree::Leave(Box::new(alloc, a)?, *l)
        }
        Tree::Mark(a, class, kind, stamp, action) => {
            let a = copy_tree(alloc, a)?;
            Tree::Mark(Box::new(alloc, a)?, *class, *kind, *stamp, *action)
        }
        Tree::When(a, condition) => {
            let a = copy_tree(alloc, a)?;
            Tree::When(Box::new(alloc, a)?, *condition)
        }
    })
}

// A copy of a tree with its stamps, bases and places.
pub fn copy(alloc: Global, x: &Placed) -> Result<Placed, AllocError>
    ensures { IfOk result (λ r. placed_of r ≡ placed_of x.now) }
{
    let tree = copy_tree(alloc, &x.tree)?;
    let places = List::from_slice(alloc, x.places.as_slice())?;
    Ok(Placed { tree, places })
}

// The tree behind those before it, from the left.
pub fn append(
    alloc: Global,
    made: Option<Placed>,
    x: Placed,
    at: Place,
) -> Result<Placed, AllocError>
    ensures { IfOk result (λ r. placed_of r ≡ appended made (placed_of x) at) }
{
    match made {
        None => Ok(x),
        Some(y) => pair(alloc, Pairing::Then, y, x, at),
    }
}

// So many copies of a tree, and then so many of another, in a row.
pub fn row(
    alloc: Global,
    x: &Placed,
    few: u64,
    y: &Placed,
    more: u64,
    at: Place,
) -> Result<Placed, AllocError>
    ensures { IfOk result (λ r. placed_of r ≡ row_of (replicate few (placed_of x.now) ++ replicate more (placed_of y.now)) at) }
{
    let mut made: Option<Placed> = None;
    for _i in 0..few {
        let c = copy(alloc, x)?;
        made = Some(append(alloc, made, c, at)?);
    }
    for _j in 0..more {
        let c = copy(alloc, y)?;
        made = Some(append(alloc, made, c, at)?);
    }
    match made {
        None => single(alloc, Tree::Null, at),
        Some(x) => Ok(x),
    }
}
