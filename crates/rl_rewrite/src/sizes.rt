// Nodes and depth of trees before they are made.
ghost use Rattle.std.specs.Prelude.{◌≡◌, ◌≤◌, ◌+◌, min, max, map, length, take, slice_get, IfOk};
ghost use Rattle.rl_rewrite.specs.Plain.{followed, operand_followed, operands_followed, patterns_followed, value_followed, value_behind, name_followed, leaf_plain, row};
ghost use Rattle.rl_rewrite.specs.Sizes.{row_nodes, row_depth, pattern_nodes, pattern_depth};
ghost use Rattle.rl_rewrite.specs.Measures as m;
ghost use Rattle.rl_rewrite.specs.Measures.{IsCut, AreSizes, cut, measured, value_measured};

use crate::leaves::first_item;
use crate::repeats::has_copies;
use crate::walk::before;
use rl_draft::{
    Bounds, Definition, Expression, Item, Join, Leaf, Link, Negation, NegationSign, Pattern,
    Repetition, Value,
};
use rl_types::{Alphabet, List};
use std::alloc::{AllocError, Global};

/// The nodes of a tree and its depth, neither of them told apart above a million.
#[derive(Clone, Copy, Debug, PartialEq, Eq)]
pub struct Size {
    pub nodes: u64,
    pub depth: u64,
}

const MOST: u64 = 1_000_000;

const ONE: Size = Size { nodes: 1, depth: 1 };

fn cut_number(n: u64) -> u64
    ensures { result ≡ min 1000000 n }
{
    if n < MOST { n } else { MOST }
}

fn greater(a: u64, b: u64) -> u64
    ensures { result ≡ max a b }
{
    if a < b { b } else { a }
}

fn cut_size(nodes: u64, depth: u64) -> Size
    ensures { result ≡ cut (record { nodes = nodes; depth = depth }) }
{
    Size {
        nodes: cut_number(nodes),
        depth: cut_number(depth),
    }
}

// Two trees side by side, with this many nodes and levels above them.
fn both(a: Size, b: Size, more: u64, levels: u64) -> Size
    requires left { IsCut a }
    requires right { IsCut b }
    requires few { (more ≤ 10) × (levels ≤ 10) }
    ensures size { result ≡ cut (m.both a b more levels) }
    ensures cut { IsCut result }
{
    cut_size(a.nodes + b.nodes + more, greater(a.depth, b.depth) + levels)
}

// `--`.
fn strong(a: Size, b: Size) -> Size
    requires left { IsCut a }
    requires right { IsCut b }
    ensures size { result ≡ cut (m.strong_size a b) }
    ensures cut { IsCut result }
{
    let inner = greater(2, b.depth) + 2;
    cut_size(a.nodes + b.nodes + 7, greater(a.depth, inner) + 1)
}

// An operand with its join behind a tree.
fn joined(join: Join, a: Size, b: Size) -> Size
    requires left { IsCut a }
    requires right { IsCut b }
    ensures size { result ≡ cut (m.joined_size join a b) }
    ensures cut { IsCut result }
{
    match join {
        Join::Union | Join::Intersection | Join::Difference | Join::Concatenation => both(
            a, b, 1, 1,
        ),
        Join::StrongDifference => strong(a, b),
        Join::LeftGuarded | Join::EntryGuarded | Join::FinishGuarded => both(a, b, 3, 2),
    }
}

// The nodes of so many copies of a tree and so many of another, in a row.
#[tactic(auto, using(crate::proofs::CutLaws::row_cut))]
fn row_nodes_of(few: u64, k: u64, more: u64, j: u64) -> u64
    requires left { (1 ≤ k) × (k ≤ 1000000) }
    requires right { (1 ≤ j) × (j ≤ 1000002) }
    ensures { result ≡ min 1000000 (row_nodes few k more j) }
{
    let few = cut_number(few);
    let more = cut_number(more);
    cut_number((few * (k + 1) + more * (j + 1)).saturating_sub(1))
}

// Their depth.
#[tactic(auto, using(crate::proofs::CutLaws::row_depth_cut))]
fn row_depth_of(few: u64, d: u64, more: u64, e: u64) -> u64
    requires left { (1 ≤ d) × (d ≤ 1000000) }
    requires right { (1 ≤ e) × (e ≤ 1000002) }
    ensures { result ≡ min 1000000 (row_depth few d more e) }
{
    let few = cut_number(few);
    let more = cut_number(more);
    match (few, more) {
        (0, 0) => 1,
        (0, _) => cut_number(e + more - 1),
        (_, 0) => cut_number(d + few - 1),
        (_, _) => cut_number(greater(d + few - 1, e) + more),
    }
}

// The copies of a count.
fn counted(least: u64, most: Option<u64>, s: Size) -> Size
    requires { IsCut s }
    ensures size { result ≡ cut (m.count_size least most s) }
    ensures cut { IsCut result }
{
    if !has_copies(least, most) {
        return ONE;
    }
    match most {
        Some(most) => {
            let more = most.saturating_sub(least);
            Size {
                nodes: row_nodes_of(least, s.nodes, more, s.nodes + 2),
                depth: row_depth_of(least, s.depth, more, greater(s.depth, 1) + 1),
            }
        }
        None => Size {
            nodes: row_nodes_of(least, s.nodes, 1, s.nodes + 1),
            depth: row_depth_of(least, s.depth, 1, s.depth + 1),
        },
    }
}

// A repetition.
fn repeated(r: Repetition, s: Size) -> Size
    requires { IsCut s }
    ensures size { result ≡ cut (m.repeated_size r s) }
    ensures cut { IsCut result }
{
    match r {
        Repetition::Star => counted(0, None, s),
        Repetition::LongestStar => cut_size(s.nodes + 3, s.depth + 3),
        Repetition::Optional => counted(0, Some(1), s),
        Repetition::Plus => counted(1, None, s),
        Repetition::Count(Bounds { least, most }) => counted(least, most, s),
    }
}

fn all_repeated_of(rs: &[Repetition], s: Size) -> Size
    requires { IsCut s }
    ensures size { result ≡ m.all_repeated_size s rs.now }
    ensures cut { IsCut result }
{
    let mut s = s;
    for r in rs {
        s = repeated(*r, s);
    }
    s
}

fn negated(n: Negation, s: Size) -> Size
    requires { IsCut s }
    ensures size { result ≡ cut (m.both (m.whole_size n) s 1 1) }
    ensures cut { IsCut result }
{
    match n {
        Negation::Language => both(Size { nodes: 2, depth: 2 }, s, 1, 1),
        Negation::Character => both(ONE, s, 1, 1),
    }
}

fn all_negated_of(ns: &[NegationSign], s: Size) -> Size
    requires { IsCut s }
    ensures size { result ≡ m.all_negated_size s ns.now }
    ensures cut { IsCut result }
{
    let mut s = s;
    let mut i = ns.len();
    while i > 0 {
        i -= 1;
        s = negated(ns[i].negation, s);
    }
    s
}

fn item_of(item: &Item) -> Size
    ensures size { result ≡ m.item_size item.now }
    ensures cut { IsCut result }
{
    if item.starred {
        Size { nodes: 2, depth: 2 }
    } else {
        ONE
    }
}

fn items_of(items: &[Item], s: Size) -> Size
    requires { IsCut s }
    ensures size { result ≡ m.items_size s items.now }
    ensures cut { IsCut result }
{
    let mut s = s;
    for item in items {
        s = both(s, item_of(item), 1, 1);
    }
    s
}

#[tactic(auto, using(crate::proofs::CutLaws::row_sizes))]
fn row_of(items: &[Item]) -> Size
    ensures size { (at : _) → result ≡ cut (measured (row items.now at)) }
    ensures cut { IsCut result }
{
    match first_item(items) {
        None => ONE,
        Some((first, rest)) => items_of(rest, item_of(first)),
    }
}

fn leaf_of(leaf: &Leaf) -> Size
    ensures size { (at : _) → result ≡ cut (measured (leaf_plain leaf.now at)) }
    ensures cut { IsCut result }
{
    match leaf {
        Leaf::Set(_) | Leaf::Null | Leaf::Nothing => ONE,
        Leaf::Row(items) => row_of(items.as_slice()),
    }
}

#[tactic(auto, using(crate::proofs::CutLaws::named_size))]
fn name_of(alphabet: Alphabet, earlier: &[Definition], sizes: &[Size], n: u32) -> Size
    requires { AreSizes alphabet earlier.now sizes.now }
    ensures size { result ≡ cut (measured (name_followed alphabet earlier.now n)) }
{
    match sizes.get(n as usize) {
        Some(s) => *s,
        None => ONE,
    }
}

// The nodes and the depth of an expression that stands behind these definitions.
#[cycle(sizes)]
#[tactic(auto, using(crate::proofs::CutLaws::chain_size, crate::proofs::Weights::chain_weight, crate::proofs::CutLaws::repeated_cut, crate::proofs::CutLaws::negated_cut, crate::proofs::CutLaws::measured_cut))]
pub fn size_of(alphabet: Alphabet, earlier: &[Definition], sizes: &[Size], e: &Expression) -> Size
    requires { AreSizes alphabet earlier.now sizes.now }
    ensures size { result ≡ cut (measured (followed alphabet earlier.now e.now)) }
{
    match e {
        Expression::Leaf(leaf, _) => leaf_of(leaf),
        Expression::Name(n) => name_of(alphabet, earlier, sizes, *n),
        Expression::Chain(first, links, _) => {
            let s = size_of(alphabet, earlier, sizes, first.get());
            links_of(alphabet, earlier, sizes, links.as_slice(), s)
        }
        Expression::Repeated(a, rs, _) => all_repeated_of(
            rs.as_slice(),
            size_of(alphabet, earlier, sizes, a.get()),
        ),
        Expression::Negated(ns, a) => all_negated_of(
            ns.as_slice(),
            size_of(alphabet, earlier, sizes, a.get()),
        ),
        Expression::Embedded(a, puts, _) => {
            let s = size_of(alphabet, earlier, sizes, a.get());
            raised(s, puts.len())
        }
    }
}

fn raised(s: Size, n: usize) -> Size
    requires { IsCut s }
    ensures { result ≡ cut (m.raised s n) }
{
    let n = cut_number(n as u64);
    cut_size(s.nodes + n, s.depth + n)
}

// An operand with its join behind a tree.
#[cycle(sizes)]
#[tactic(auto, using(crate::proofs::CutLaws::known_cut))]
fn link_of(alphabet: Alphabet, earlier: &[Definition], sizes: &[Size], link: &Link, s: Size) -> Size
    requires sizes { AreSizes alphabet earlier.now sizes.now }
    requires cut { IsCut s }
    ensures size { result ≡ cut (m.joined_size (operand_followed alphabet earlier.now link.now).join s (cut (measured (operand_followed alphabet earlier.now link.now).plain))) }
    ensures cut { IsCut result }
{
    let right = size_of(alphabet, earlier, sizes, &link.operand);
    joined(link.join, s, right)
}

// Operands behind a tree, from the left.
#[cycle(sizes)]
fn links_of(
    alphabet: Alphabet,
    earlier: &[Definition],
    sizes: &[Size],
    links: &[Link],
    s: Size,
) -> Size
    requires sizes { AreSizes alphabet earlier.now sizes.now }
    requires cut { IsCut s }
    ensures size { result ≡ m.chained_size s (operands_followed alphabet earlier.now links.now) }
{
    let mut s = s;
    for link in links {
        s = link_of(alphabet, earlier, sizes, link, s);
    }
    s
}

// The size of what a definition stands for as a name.
fn value_of(alphabet: Alphabet, earlier: &[Definition], sizes: &[Size], value: &Value) -> Size
    requires { AreSizes alphabet earlier.now sizes.now }
    ensures { result ≡ cut (measured (value_followed alphabet earlier.now value.now)) }
{
    match value {
        Value::Expression(e) => size_of(alphabet, earlier, sizes, e),
        Value::Scanner(_, _) => ONE,
    }
}

// A pattern beside those before it.
fn beside(s: Size, pattern: Size) -> Size
    requires few { (s.nodes ≤ 1000000) × (s.depth ≤ 1000000) }
    requires cut { IsCut pattern }
    ensures size { result ≡ cut (m.beside s pattern) }
    ensures few { (result.nodes ≤ 1000000) × (result.depth ≤ 1000000) }
{
    cut_size(s.nodes + pattern.nodes, greater(s.depth, pattern.depth))
}

// The size of a pattern's expression beside those before it.
#[tactic(auto, using(crate::proofs::CutLaws::known_cut))]
fn pattern_beside(
    alphabet: Alphabet,
    earlier: &[Definition],
    sizes: &[Size],
    s: Size,
    pattern: &Pattern,
) -> Size
    requires sizes { AreSizes alphabet earlier.now sizes.now }
    requires few { (s.nodes ≤ 1000000) × (s.depth ≤ 1000000) }
    ensures size { result ≡ cut (m.beside s (cut (measured (followed alphabet earlier.now pattern.now.expression)))) }
    ensures few { (result.nodes ≤ 1000000) × (result.depth ≤ 1000000) }
{
    let size = size_of(alphabet, earlier, sizes, &pattern.expression);
    beside(s, size)
}

// The patterns of a scanner beside its own node.
fn patterns_beside(
    alphabet: Alphabet,
    earlier: &[Definition],
    sizes: &[Size],
    patterns: &[Pattern],
) -> Size
    requires { AreSizes alphabet earlier.now sizes.now }
    ensures { result ≡ m.all_beside (record { nodes = 1; depth = 0 }) (patterns_followed alphabet earlier.now patterns.now) }
{
    let mut s = Size { nodes: 1, depth: 0 };
    for pattern in patterns {
        s = pattern_beside(alphabet, earlier, sizes, s, pattern);
    }
    s
}

// The size of a scanner: one node beside those of its patterns, and as deep as the deepest of them.
fn scanner_size(
    alphabet: Alphabet,
    earlier: &[Definition],
    sizes: &[Size],
    patterns: &[Pattern],
) -> Size
    requires { AreSizes alphabet earlier.now sizes.now }
    ensures { result ≡ cut (record { nodes = pattern_nodes (patterns_followed alphabet earlier.now patterns.now) + 1; depth = pattern_depth (patterns_followed alphabet earlier.now patterns.now) }) }
{
    patterns_beside(alphabet, earlier, sizes, patterns)
}

// The size of an entry.
pub fn entry_size(alphabet: Alphabet, earlier: &[Definition], sizes: &[Size], value: &Value) -> Size
    requires { AreSizes alphabet earlier.now sizes.now }
    ensures { result ≡ cut (value_measured (value_behind alphabet earlier.now value.now)) }
{
    match value {
        Value::Expression(e) => size_of(alphabet, earlier, sizes, e),
        Value::Scanner(patterns, _) => scanner_size(alphabet, earlier, sizes, patterns.as_slice()),
    }
}

// The sizes of the definitions before the one with a number.
pub fn sizes_before(sizes: &[Size], n: usize) -> &[Size]
    requires { n ≤ length sizes.now }
    ensures { result.now ≡ take n sizes.now }
{
    &sizes[..n]
}

// The sizes of all definitions.
#[tactic(auto, using(crate::proofs::CutLaws::sizes_next))]
pub fn table(
    alloc: Global,
    alphabet: Alphabet,
    definitions: &[Definition],
) -> Result<List<Size>, AllocError>
    ensures { IfOk result (λ sizes. AreSizes alphabet definitions.now sizes) }
{
    let mut sizes: List<Size> = List::new(alloc);
    for (i, d) in definitions.iter().enumerate() {
        let earlier = before(definitions, i);
        let s = value_of(alphabet, earlier, sizes.as_slice(), &d.value);
        sizes.push(s)?;
    }
    Ok(sizes)
}
