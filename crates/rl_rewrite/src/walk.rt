// The walk over an expression whose names are numbers of earlier definitions.
ghost use Rattle.std.specs.Prelude.{◌≡◌, ◌+◌, ◌*◌, ◌≤◌, ◌∷◌, [], map, slice_get, take, length, Some, MatchOption, IfOk, OnOk};
ghost use Rattle.rl_rewrite.specs.Plain.{followed, operand_followed, operands_followed, value_followed, name_followed, all_repeated, all_negated};
ghost use Rattle.rl_rewrite.specs.Plain as p;
ghost use Rattle.rl_rewrite.specs.Walk as w;
ghost use Rattle.rl_rewrite.specs.Sizes.{nodes};
ghost use Rattle.rl_rewrite.specs.Steps.{placed_of, Gives, AreFew, HasRoom, MayStamp, joined_on, chained_on, chained_behind, operand_nodes};

use crate::counts::Counts;
use crate::joins::{close, open, whole};
use crate::layers::{around, first_layers};
use crate::leaves::walk_leaf;
use crate::placed::{Pairing, Placed, pair, single};
use crate::repeats::{are_copies, behind_uncopied, repeat_all};
use rl_automata::Tree;
use rl_draft::{Definition, Expression, Link, NegationSign, Put, Repetition, Value};
use rl_types::{Alphabet, Place};
use std::alloc::{AllocError, Global};

// The place of a leaf that stands for no definition, or for a scanner.
const NO_PLACE: Place = Place {
    file: 0,
    line: 0,
    col: 0,
};

// The tree of an expression that stands behind these definitions.
#[cycle(walk)]
#[tactic(auto, using(crate::proofs::ChainLaws::chain_nodes, crate::proofs::ChainLaws::chain_walk, crate::proofs::Weights::chain_weight))]
pub fn walk(
    alloc: Global,
    alphabet: Alphabet,
    earlier: &[Definition],
    e: &Expression,
    counts: &mut Counts,
) -> Result<Placed, AllocError>
    requires room { HasRoom counts.old (nodes (followed alphabet earlier.now e.now)) }
    ensures tree { IfOk result (λ r. Gives (w.walk (followed alphabet earlier.now e.now) counts.old) r counts.new) }
    ensures stamp { OnOk result (MayStamp (nodes (followed alphabet earlier.now e.now)) counts.old counts.new) }
    ensures few { OnOk result (AreFew counts.new) }
{
    match e {
        Expression::Leaf(leaf, at) => walk_leaf(alloc, leaf, *at, counts),
        Expression::Name(n) => walk_name(alloc, alphabet, earlier, *n, counts),
        Expression::Chain(first, links, at) => {
            let r = walk_chain(
                alloc,
                alphabet,
                earlier,
                first.get(),
                links.as_slice(),
                *at,
                counts,
            )?;
            Ok(r)
        }
        Expression::Repeated(a, rs, at) => walk_repeated(
            alloc,
            alphabet,
            earlier,
            a.get(),
            rs.as_slice(),
            *at,
            counts,
        ),
        Expression::Negated(ns, a) => walk_negated(
            alloc,
            alphabet,
            earlier,
            ns.as_slice(),
            a.get(),
            counts,
        ),
        Expression::Embedded(a, puts, at) => walk_embedded(
            alloc,
            alphabet,
            earlier,
            a.get(),
            puts.as_slice(),
            *at,
            counts,
        ),
    }
}

// The definitions before the one with a number.
pub fn before(definitions: &[Definition], n: usize) -> &[Definition]
    requires { n ≤ length definitions.now }
    ensures { result.now ≡ take n definitions.now }
{
    &definitions[..n]
}

// The definition with a number, and those before it.
fn definition_at(definitions: &[Definition], n: usize) -> Option<(&Definition, &[Definition])>
    ensures { MatchOption result (length definitions.now ≤ n) (λ x. (slice_get definitions.now n ≡ Some x.0.now) × (x.1.now ≡ take n definitions.now)) }
{
    if n < definitions.len() {
        Some((&definitions[n], &definitions[..n]))
    } else {
        None
    }
}

// The tree of the definition with a number.
#[cycle(walk)]
#[tactic(auto, using(crate::proofs::NameLaws::named_at, crate::proofs::NameLaws::named_past, crate::proofs::Weights::reach_falls))]
fn walk_name(
    alloc: Global,
    alphabet: Alphabet,
    earlier: &[Definition],
    n: u32,
    counts: &mut Counts,
) -> Result<Placed, AllocError>
    requires room { HasRoom counts.old (nodes (name_followed alphabet earlier.now n)) }
    ensures tree { IfOk result (λ r. Gives (w.walk (name_followed alphabet earlier.now n) counts.old) r counts.new) }
    ensures stamp { OnOk result (MayStamp (nodes (name_followed alphabet earlier.now n)) counts.old counts.new) }
    ensures few { OnOk result (AreFew counts.new) }
{
    match definition_at(earlier, n as usize) {
        None => single(alloc, Tree::Nothing, NO_PLACE),
        Some((d, before)) => walk_value(alloc, alphabet, before, &d.value, counts),
    }
}

// The tree of what a definition stands for as a name: a scanner stands for no word.
#[cycle(walk)]
pub fn walk_value(
    alloc: Global,
    alphabet: Alphabet,
    earlier: &[Definition],
    value: &Value,
    counts: &mut Counts,
) -> Result<Placed, AllocError>
    requires room { HasRoom counts.old (nodes (value_followed alphabet earlier.now value.now)) }
    ensures tree { IfOk result (λ r. Gives (w.walk (value_followed alphabet earlier.now value.now) counts.old) r counts.new) }
    ensures stamp { OnOk result (MayStamp (nodes (value_followed alphabet earlier.now value.now)) counts.old counts.new) }
    ensures few { OnOk result (AreFew counts.new) }
{
    match value {
        Value::Expression(e) => walk(alloc, alphabet, earlier, e, counts),
        Value::Scanner(_, _) => single(alloc, Tree::Nothing, NO_PLACE),
    }
}

// An operand behind a tree.
#[cycle(walk)]
fn walk_link(
    alloc: Global,
    alphabet: Alphabet,
    earlier: &[Definition],
    link: &Link,
    at: Place,
    x: Placed,
    counts: &mut Counts,
) -> Result<Placed, AllocError>
    requires room { HasRoom counts.old (operand_nodes (operand_followed alphabet earlier.now link.now ∷ [])) }
    ensures tree { IfOk result (λ r. Gives (joined_on alphabet at (operand_followed alphabet earlier.now link.now) (placed_of x) counts.old) r counts.new) }
    ensures stamp { OnOk result (MayStamp (operand_nodes (operand_followed alphabet earlier.now link.now ∷ [])) counts.old counts.new) }
    ensures few { OnOk result (AreFew counts.new) }
{
    let opening = open(alloc, alphabet, link.join, at, x, counts)?;
    let right = walk(alloc, alphabet, earlier, &link.operand, counts)?;
    close(alloc, alphabet, at, opening, right, counts)
}

// Operands behind a tree, from the left.
#[cycle(walk)]
#[tactic(auto, using(crate::proofs::ChainLaws::links_left, crate::proofs::Weights::link_falls))]
fn walk_links(
    alloc: Global,
    alphabet: Alphabet,
    earlier: &[Definition],
    links: &[Link],
    at: Place,
    x: Placed,
    counts: &mut Counts,
) -> Result<Placed, AllocError>
    requires room { HasRoom counts.old (operand_nodes (operands_followed alphabet earlier.now links.now)) }
    ensures tree { IfOk result (λ r. Gives (chained_on alphabet at (operands_followed alphabet earlier.now links.now) (placed_of x) counts.old) r counts.new) }
    ensures stamp { OnOk result (MayStamp (operand_nodes (operands_followed alphabet earlier.now links.now)) counts.old counts.new) }
    ensures few { OnOk result (AreFew counts.new) }
{
    let mut x = x;
    for link in links {
        x = walk_link(alloc, alphabet, earlier, link, at, x, counts)?;
    }
    Ok(x)
}

// An operand with those behind it.
#[cycle(walk)]
fn walk_chain(
    alloc: Global,
    alphabet: Alphabet,
    earlier: &[Definition],
    first: &Expression,
    links: &[Link],
    at: Place,
    counts: &mut Counts,
) -> Result<Placed, AllocError>
    requires room { HasRoom counts.old (nodes (followed alphabet earlier.now first.now) + operand_nodes (operands_followed alphabet earlier.now links.now)) }
    ensures tree { IfOk result (λ r. Gives (chained_behind alphabet at (followed alphabet earlier.now first.now) (operands_followed alphabet earlier.now links.now) counts.old) r counts.new) }
    ensures stamp { OnOk result (MayStamp (nodes (followed alphabet earlier.now first.now) + operand_nodes (operands_followed alphabet earlier.now links.now)) counts.old counts.new) }
    ensures few { OnOk result (AreFew counts.new) }
{
    let x = walk(alloc, alphabet, earlier, first, counts)?;
    walk_links(alloc, alphabet, earlier, links, at, x, counts)
}

// An operand with its repetitions. It is not walked where one of them makes no copy.
#[cycle(walk)]
#[tactic(auto, using(crate::proofs::RepeatLaws::walk_all, crate::proofs::RepeatLaws::walk_uncopied, crate::proofs::RepeatLaws::nodes_all, crate::proofs::RepeatLaws::nodes_uncopied))]
fn walk_repeated(
    alloc: Global,
    alphabet: Alphabet,
    earlier: &[Definition],
    e: &Expression,
    rs: &[Repetition],
    at: Place,
    counts: &mut Counts,
) -> Result<Placed, AllocError>
    requires room { HasRoom counts.old (nodes (all_repeated rs.now (followed alphabet earlier.now e.now) at)) }
    ensures tree { IfOk result (λ r. Gives (w.walk (all_repeated rs.now (followed alphabet earlier.now e.now) at) counts.old) r counts.new) }
    ensures stamp { OnOk result (MayStamp (nodes (all_repeated rs.now (followed alphabet earlier.now e.now) at)) counts.old counts.new) }
    ensures few { OnOk result (AreFew counts.new) }
{
    if are_copies(rs) {
        let x = walk(alloc, alphabet, earlier, e, counts)?;
        repeat_all(alloc, rs, at, x, counts)
    } else {
        let x = single(alloc, Tree::Null, at)?;
        repeat_all(alloc, behind_uncopied(rs), at, x, counts)
    }
}

// An operand with its negations. What each takes its operand from is walked before the operand, and stands at the sign.
#[cycle(walk)]
fn walk_negated(
    alloc: Global,
    alphabet: Alphabet,
    earlier: &[Definition],
    ns: &[NegationSign],
    e: &Expression,
    counts: &mut Counts,
) -> Result<Placed, AllocError>
    requires room { HasRoom counts.old (nodes (all_negated alphabet ns.now (followed alphabet earlier.now e.now))) }
    ensures tree { IfOk result (λ r. Gives (w.walk (all_negated alphabet ns.now (followed alphabet earlier.now e.now)) counts.old) r counts.new) }
    ensures stamp { OnOk result (MayStamp (nodes (all_negated alphabet ns.now (followed alphabet earlier.now e.now))) counts.old counts.new) }
    ensures few { OnOk result (AreFew counts.new) }
{
    match ns {
        [] => walk(alloc, alphabet, earlier, e, counts),
        [n, rest @ ..] => {
            let x = whole(alloc, alphabet, n.negation, n.place, counts)?;
            let y = walk_negated(alloc, alphabet, earlier, rest, e, counts)?;
            pair(alloc, Pairing::Less, x, y, n.place)
        }
    }
}

// An operand with what is embedded in it.
#[cycle(walk)]
fn walk_embedded(
    alloc: Global,
    alphabet: Alphabet,
    earlier: &[Definition],
    e: &Expression,
    puts: &[Put],
    at: Place,
    counts: &mut Counts,
) -> Result<Placed, AllocError>
    requires room { HasRoom counts.old (nodes (p.Series (followed alphabet earlier.now e.now) puts.now at)) }
    ensures tree { IfOk result (λ r. Gives (w.walk (p.Series (followed alphabet earlier.now e.now) puts.now at) counts.old) r counts.new) }
    ensures stamp { OnOk result (MayStamp (nodes (p.Series (followed alphabet earlier.now e.now) puts.now at)) counts.old counts.new) }
    ensures few { OnOk result (AreFew counts.new) }
{
    let layers = first_layers(alloc, puts, counts)?;
    let x = walk(alloc, alphabet, earlier, e, counts)?;
    around(alloc, puts, &layers, at, x, counts)
}
