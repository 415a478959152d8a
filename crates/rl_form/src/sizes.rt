// The nodes of expressions, and their levels.
ghost use Rattle.std.specs.Prelude.{◌≡◌, ◌<◌, ◌≤◌, ◌+◌, ◌↔◌, IsTrue, MatchOption, sum_by};
ghost use Rattle.rl_automata.specs.Nodes.{node_of};
ghost use Rattle.rl_model.specs.declared.spec.Pattern as pattern;
ghost use Rattle.rl_model.specs.Counts.{size_of, depth_of};

use rl_automata::Tree;
use rl_model::Pattern;

// Whether the expression has no more than so many levels below its root.
#[tactic(auto, using(crate::proofs::Levels::some_level))]
pub(crate) fn is_within(t: &Tree, levels: u32) -> bool
    ensures { IsTrue result ↔ depth_of (node_of t.now) ≤ levels + 1 }
{
    match t {
        Tree::Set(_) => true,
        Tree::Null => true,
        Tree::Nothing => true,
        Tree::Union(a, b) => levels > 0 && is_within(a, levels - 1) && is_within(b, levels - 1),
        Tree::And(a, b) => levels > 0 && is_within(a, levels - 1) && is_within(b, levels - 1),
        Tree::Minus(a, b) => levels > 0 && is_within(a, levels - 1) && is_within(b, levels - 1),
        Tree::Cat(a, b) => levels > 0 && is_within(a, levels - 1) && is_within(b, levels - 1),
        Tree::Star(a, _) => levels > 0 && is_within(a, levels - 1),
        Tree::Enter(a, _) => levels > 0 && is_within(a, levels - 1),
        Tree::Finish(a, _) => levels > 0 && is_within(a, levels - 1),
        Tree::All(a, _) => levels > 0 && is_within(a, levels - 1),
        Tree::Leave(a, _) => levels > 0 && is_within(a, levels - 1),
        Tree::Mark(a, _, _, _, _) => levels > 0 && is_within(a, levels - 1),
        Tree::When(a, _) => levels > 0 && is_within(a, levels - 1),
    }
}

// What is left of a number of nodes behind those of the expression; None where it has more.
fn left_by(t: &Tree, nodes: usize) -> Option<usize>
    ensures { MatchOption result (nodes < size_of (node_of t.now)) (λ left. left + size_of (node_of t.now) ≡ nodes) }
{
    match t {
        Tree::Set(_) => nodes.checked_sub(1),
        Tree::Null => nodes.checked_sub(1),
        Tree::Nothing => nodes.checked_sub(1),
        Tree::Union(a, b) => left_by(b, left_by(a, nodes)?)?.checked_sub(1),
        Tree::And(a, b) => left_by(b, left_by(a, nodes)?)?.checked_sub(1),
        Tree::Minus(a, b) => left_by(b, left_by(a, nodes)?)?.checked_sub(1),
        Tree::Cat(a, b) => left_by(b, left_by(a, nodes)?)?.checked_sub(1),
        Tree::Star(a, _) => left_by(a, nodes)?.checked_sub(1),
        Tree::Enter(a, _) => left_by(a, nodes)?.checked_sub(1),
        Tree::Finish(a, _) => left_by(a, nodes)?.checked_sub(1),
        Tree::All(a, _) => left_by(a, nodes)?.checked_sub(1),
        Tree::Leave(a, _) => left_by(a, nodes)?.checked_sub(1),
        Tree::Mark(a, _, _, _, _) => left_by(a, nodes)?.checked_sub(1),
        Tree::When(a, _) => left_by(a, nodes)?.checked_sub(1),
    }
}

// Whether the expression has exactly so many nodes.
pub(crate) fn has_nodes(t: &Tree, nodes: usize) -> bool
    ensures { IsTrue result ↔ (size_of (node_of t.now) ≡ nodes) }
{
    match left_by(t, nodes) {
        Some(left) => left == 0,
        None => false,
    }
}

// What is left of a number of nodes behind those of all patterns; None where they have more.
fn left_by_all(patterns: &[Pattern], nodes: usize) -> Option<usize>
    ensures { MatchOption result (nodes < sum_by (λ (p : pattern.Pattern). size_of (node_of p.tree)) patterns.now) (λ left. left + sum_by (λ (p : pattern.Pattern). size_of (node_of p.tree)) patterns.now ≡ nodes) }
{
    let mut left = nodes;
    for p in patterns {
        left = left_by(&p.tree, left)?;
    }
    Some(left)
}

// Whether the patterns have exactly so many nodes with the one of their scanner.
pub(crate) fn have_nodes(patterns: &[Pattern], nodes: usize) -> bool
    ensures { IsTrue result ↔ (sum_by (λ (p : pattern.Pattern). size_of (node_of p.tree)) patterns.now + 1 ≡ nodes) }
{
    match left_by_all(patterns, nodes) {
        Some(left) => left == 1,
        None => false,
    }
}
