// Trees with the places of their nodes.
ghost use Rattle.std.specs.Prelude.{◌≡◌, IfOk};
ghost use Rattle.rl_automata.specs.Nodes.{node_of};
ghost use Rattle.rl_rewrite.specs.Walk as w;
ghost use Rattle.rl_rewrite.specs.Steps.{placed_of, pairing_of};

use crate::layers::Layer;
use rl_automata::Tree;
use rl_draft::Transitions;
use rl_types::{List, Place};
use std::alloc::{AllocError, Global};

/// A tree, and the place of each of its nodes in post-order.
#[derive(Debug, Drop)]
pub struct Placed {
    pub tree: Tree,
    pub places: List<Place>,
}

/// What is made of two trees.
#[derive(Clone, Copy, Debug, PartialEq, Eq)]
pub enum Pairing {
    Either,
    Both,
    Less,
    Then,
}

// A tree of one node.
pub fn single(alloc: Global, tree: Tree, at: Place) -> Result<Placed, AllocError>
    ensures { IfOk result (λ r. placed_of r ≡ w.single (node_of tree) at) }
{
    let mut places: List<Place> = List::new(alloc);
    places.push(at)?;
    Ok(Placed { tree, places })
}

fn pair_tree(alloc: Global, pairing: Pairing, a: Tree, b: Tree) -> Result<Tree, AllocError>
    ensures { IfOk result (λ r. node_of r ≡ w.pair_node (pairing_of pairing) (node_of a) (node_of b)) }
{
    let a = Box::new(alloc, a)?;
    let b = Box::new(alloc, b)?;
    Ok(match pairing {
        Pairing::Either => Tree::Union(a, b),
        Pairing::Both => Tree::And(a, b),
        Pairing::Less => Tree::Minus(a, b),
        Pairing::Then => Tree::Cat(a, b),
    })
}

// Two trees in one.
pub fn pair(
    alloc: Global,
    pairing: Pairing,
    x: Placed,
    y: Placed,
    at: Place,
) -> Result<Placed, AllocError>
    ensures { IfOk result (λ r. placed_of r ≡ w.paired (pairing_of pairing) (placed_of x) (placed_of y) at) }
{
    let Placed {
        tree: a,
        mut places,
    } = x;
    let Placed {
        tree: b,
        places: more,
    } = y;
    places.append(more)?;
    places.push(at)?;
    let tree = pair_tree(alloc, pairing, a, b)?;
    Ok(Placed { tree, places })
}

// A tree any number of times, with its base.
pub fn star(alloc: Global, x: Placed, base: u32, at: Place) -> Result<Placed, AllocError>
    ensures { IfOk result (λ r. placed_of r ≡ w.star (placed_of x) base at) }
{
    let Placed { tree, mut places } = x;
    places.push(at)?;
    let tree = Box::new(alloc, tree)?;
    Ok(Placed {
        tree: Tree::Star(tree, base),
        places,
    })
}

fn layer_tree(alloc: Global, layer: Layer, tree: Tree) -> Result<Tree, AllocError>
    ensures { IfOk result (λ r. node_of r ≡ w.layer_node layer (node_of tree)) }
{
    let t = Box::new(alloc, tree)?;
    Ok(match layer {
        Layer::Step(Transitions::Entering, l) => Tree::Enter(t, l),
        Layer::Step(Transitions::Finishing, l) => Tree::Finish(t, l),
        Layer::Step(Transitions::All, l) => Tree::All(t, l),
        Layer::Step(Transitions::Leaving, l) => Tree::Leave(t, l),
        Layer::State(class, kind, stamp, action) => Tree::Mark(t, class, kind, stamp, action),
        Layer::When(condition) => Tree::When(t, condition),
    })
}

// A tree with a layer around it.
pub fn layered(alloc: Global, layer: Layer, x: Placed, at: Place) -> Result<Placed, AllocError>
    ensures { IfOk result (λ r. placed_of r ≡ w.layered layer (placed_of x) at) }
{
    let Placed { tree, mut places } = x;
    places.push(at)?;
    let tree = layer_tree(alloc, layer, tree)?;
    Ok(Placed { tree, places })
}
