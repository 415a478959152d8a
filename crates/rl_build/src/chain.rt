// Unions of many operands. Joined one after another, the machine of all before is walked again for each operand. Where no
// embedding puts on a priority, it does not matter how the operands are grouped, so the machines of the two halves are
// joined. Only where that is refused are they joined as they are written, to tell the first refused node.
ghost use Rattle.std.specs.Prelude.{◌≡◌, ◌∷◌, ◌++◌, [], ◌≤◌, ℕ, List, IfOk, IfSome, IsTrue, MatchOption, MatchResult, length};
ghost use Rattle.rl_types.specs.declared.alphabet.Alphabet.{Alphabet};
ghost use Rattle.rl_automata.specs.Nodes as N;
ghost use Rattle.rl_automata.specs.Nodes.{Node, node_of};
ghost use Rattle.rl_unions.specs.Unions.{HasNoPriors, IsAction};
ghost use Rattle.rl_build.specs.Chains.{IsNoUnion, AreOperandsOf, IsGathered, AllFit, AreSums, AreSmallSums, AreSumsOf, IsUnionOf};
ghost use Rattle.rl_build.specs.Trees.{IsBuilt, IsAnswer, IsFit, IsSmall, IsSmallAnswer};

use crate::built::{Built, Refused};
use crate::cells::Cells;
use crate::counting::{copied_cells, joined, most};
use crate::leaves::push;
use crate::pairing::Pairing;
use crate::walk::both;
use rl_automata::{Label, Tree};
use rl_fsm::Fsm;
use rl_ops::{BuildFault, or};
use rl_types::{Alphabet, MOST_CONFIGURATIONS, Memory};
use std::alloc::Global;

// What the operands of a union have together.
#[derive(Drop)]
pub struct Sums {
    pub cells: Cells,
    pub nodes: u32,
}

// Whether the embedding puts on an action.
fn is_action(label: &Label) -> bool
    ensures { IsTrue result → IsAction label.now }
{
    match label {
        Label::Action(_, _) => true,
        Label::Prior(_, _, _) => false,
    }
}

// Whether no embedding puts on a priority.
pub fn has_no_priors(t: &Tree) -> bool
    ensures { IsTrue result → HasNoPriors (node_of t.now) }
{
    match t {
        Tree::Set(_) => true,
        Tree::Null => true,
        Tree::Nothing => true,
        Tree::Union(a, b) => has_no_priors(a) && has_no_priors(b),
        Tree::And(a, b) => has_no_priors(a) && has_no_priors(b),
        Tree::Minus(a, b) => has_no_priors(a) && has_no_priors(b),
        Tree::Cat(a, b) => has_no_priors(a) && has_no_priors(b),
        Tree::Star(a, _) => has_no_priors(a),
        Tree::Enter(a, label) => is_action(label) && has_no_priors(a),
        Tree::Finish(a, label) => is_action(label) && has_no_priors(a),
        Tree::All(a, label) => is_action(label) && has_no_priors(a),
        Tree::Leave(a, label) => is_action(label) && has_no_priors(a),
        Tree::Mark(a, _, _, _, _) => has_no_priors(a),
        Tree::When(a, _) => has_no_priors(a),
    }
}

// The two sides of a union.
pub fn sides(t: &Tree) -> Option<(&Tree, &Tree)>
    ensures { MatchOption result (IsNoUnion (node_of t.now)) (λ p. node_of t.now ≡ N.Union (node_of p.0.now) (node_of p.1.now)) }
{
    match t {
        Tree::Set(_) => None,
        Tree::Null => None,
        Tree::Nothing => None,
        Tree::Union(a, b) => Some((a, b)),
        Tree::And(_, _) => None,
        Tree::Minus(_, _) => None,
        Tree::Cat(_, _) => None,
        Tree::Star(_, _) => None,
        Tree::Enter(_, _) => None,
        Tree::Finish(_, _) => None,
        Tree::All(_, _) => None,
        Tree::Leave(_, _) => None,
        Tree::Mark(_, _, _, _, _) => None,
        Tree::When(_, _) => None,
    }
}

// Whether the union of the expression and another one joins four operands or more.
pub fn is_many(t: &Tree) -> bool {
    match sides(t) {
        Some((a, _)) => sides(a).is_some(),
        None => false,
    }
}

// The machine of the union of two operands or three.
fn few_united(alloc: Global, operands: &[Built]) -> Result<Fsm, BuildFault>
    requires some { 2 ≤ length operands.now }
    requires few { length operands.now ≤ 3 }
    ensures { IfOk result (IsUnionOf operands.now) }
{
    let Some((a, behind)) = operands.split_first() else {
        unreachable!()
    };
    let Some((b, last)) = behind.split_first() else {
        unreachable!()
    };
    let front = or(alloc, &a.machine, &b.machine, MOST_CONFIGURATIONS)?;
    match last.split_first() {
        None => Ok(front),
        Some((c, _)) => or(alloc, &front, &c.machine, MOST_CONFIGURATIONS),
    }
}

// The machine of the union of these operands, of the machines of its halves.
fn united(alloc: Global, operands: &[Built]) -> Result<Fsm, BuildFault>
    requires { 2 ≤ length operands.now }
    ensures { IfOk result (IsUnionOf operands.now) }
{
    if operands.len() < 4 {
        return few_united(alloc, operands);
    }
    let (left, right) = operands.split_at(operands.len() / 2);
    let left = united(alloc, left)?;
    let right = united(alloc, right)?;
    or(alloc, &left, &right, MOST_CONFIGURATIONS)
}

// What an operand has.
fn first_sums(alloc: Global, operand: &Built) -> Result<Sums, Memory>
    ensures { IfOk result (λ s. (alphabet : Alphabet) (states : ℕ) (t : Node) → AllFit alphabet states t → IsBuilt alphabet t operand.now → AreSums alphabet states t s) }
{
    let cells = copied_cells(alloc, &operand.cells)?;
    Ok(Sums {
        cells,
        nodes: operand.nodes,
    })
}

// What the operands have with one more; None where so many configurations do not fit.
fn more_sums(
    alloc: Global,
    alphabet: Alphabet,
    sums: Sums,
    operand: &Built,
    states: u32,
) -> Result<Option<Sums>, Memory>
    requires sums { AreSmallSums sums }
    requires operand { IsSmall operand.now }
    ensures { IfOk result (λ s. (a b : Node) → AreSums alphabet states a sums → IsBuilt alphabet b operand.now → AreSumsOf alphabet states (N.Union a b) s) }
{
    let more = copied_cells(alloc, &operand.cells)?;
    let cells = joined(alloc, alphabet, sums.cells, more)?;
    if states > most(&cells) {
        return Ok(None);
    }
    Ok(Some(Sums {
        cells,
        nodes: sums.nodes + operand.nodes + 1,
    }))
}

// What the operands of the expression have together; None where so many configurations do not fit one of its unions.
fn sums_of(
    alloc: Global,
    alphabet: Alphabet,
    t: &Tree,
    operands: &[Built],
    states: u32,
) -> Result<Option<Sums>, Memory>
    requires fit { IsFit (node_of t.now) }
    requires built { AreOperandsOf alphabet (node_of t.now) operands.now }
    ensures sums { IfOk result (AreSumsOf alphabet states (node_of t.now)) }
    ensures small { IfOk result (λ s. IfSome s AreSmallSums) }
{
    let Some((last, front)) = operands.split_last() else {
        unreachable!()
    };
    match sides(t) {
        Some((a, _)) => match sums_of(alloc, alphabet, a, front, states)? {
            Some(sums) => more_sums(alloc, alphabet, sums, last, states),
            None => Ok(None),
        },
        None => Ok(Some(first_sums(alloc, last)?)),
    }
}

// The machine of the whole union at once, unless one of the unions in it may be refused.
fn at_once(alloc: Global, alphabet: Alphabet, t: &Tree, operands: &[Built]) -> Option<Built>
    requires fit { IsFit (node_of t.now) }
    requires free { HasNoPriors (node_of t.now) }
    requires built { AreOperandsOf alphabet (node_of t.now) operands.now }
    ensures { IfSome result (IsBuilt alphabet (node_of t.now)) }
{
    if operands.len() < 2 {
        return None;
    }
    let Ok(machine) = united(alloc, operands) else {
        return None;
    };
    let states = machine.states();
    if states > MOST_CONFIGURATIONS {
        return None;
    }
    match sums_of(alloc, alphabet, t, operands, states) {
        Ok(Some(sums)) => Some(Built {
            machine,
            cells: sums.cells,
            nodes: sums.nodes,
        }),
        Ok(None) => None,
        Err(Memory) => None,
    }
}

// The operands joined one after another, as they are written.
fn in_order(
    alloc: Global,
    alphabet: Alphabet,
    t: &Tree,
    mut operands: Vec<Built>,
) -> Result<Built, Refused>
    requires fit { IsFit (node_of t.now) }
    requires built { AreOperandsOf alphabet (node_of t.now) operands.items }
    ensures answer { IsAnswer alphabet (node_of t.now) result }
    ensures small { IsSmallAnswer result }
{
    let Some(last) = operands.pop() else {
        unreachable!()
    };
    match sides(t) {
        Some((a, _)) => match in_order(alloc, alphabet, a, operands) {
            Ok(left) => both(alloc, alphabet, Pairing::Union, left, last),
            Err(refused) => Err(refused),
        },
        None => Ok(last),
    }
}

// The operands and one more.
pub fn pushed(mut operands: Vec<Built>, last: Built) -> Result<Vec<Built>, Refused>
    ensures { MatchResult result (λ v. v.items ≡ operands.items ++ last ∷ []) (λ r. (r.fault ≡ BuildFault.Memory) × (r.node ≡ 0)) }
{
    match push(&mut operands, last) {
        Ok(()) => Ok(operands),
        Err(Memory) => Err(Refused {
            fault: BuildFault::Memory,
            node: 0,
        }),
    }
}

// The operands of the expression and one more, of its answer. Where that is refused, a union of those before may be
// refused first.
pub fn behind(
    alloc: Global,
    alphabet: Alphabet,
    a: &Tree,
    operands: Vec<Built>,
    right: Result<Built, Refused>,
) -> Result<Vec<Built>, Refused>
    requires fit { IsFit (node_of a.now) }
    requires built { AreOperandsOf alphabet (node_of a.now) operands.items }
    requires small { IsSmallAnswer right }
    ensures { (b : Node) → IsAnswer alphabet b right → IsGathered alphabet (N.Union (node_of a.now) b) result }
{
    match right {
        Ok(last) => pushed(operands, last),
        Err(refused) => match in_order(alloc, alphabet, a, operands) {
            Ok(left) => Err(Refused {
                fault: refused.fault,
                node: left.nodes + refused.node,
            }),
            Err(first) => Err(first),
        },
    }
}

// The operand of an expression that is no union.
pub fn alone(alloc: Global, answer: Result<Built, Refused>) -> Result<Vec<Built>, Refused>
    ensures { (alphabet : Alphabet) (t : Node) → IsNoUnion t → IsAnswer alphabet t answer → IsGathered alphabet t result }
{
    match answer {
        Ok(built) => pushed(Vec::new(alloc), built),
        Err(refused) => Err(refused),
    }
}

// The answer for a union without priorities, of its operands.
pub fn finished(
    alloc: Global,
    alphabet: Alphabet,
    t: &Tree,
    gathered: Result<Vec<Built>, Refused>,
) -> Result<Built, Refused>
    requires fit { IsFit (node_of t.now) }
    requires free { HasNoPriors (node_of t.now) }
    requires gathered { IsGathered alphabet (node_of t.now) gathered }
    ensures answer { IsAnswer alphabet (node_of t.now) result }
    ensures small { IsSmallAnswer result }
{
    match gathered {
        Ok(operands) => match at_once(alloc, alphabet, t, &operands) {
            Some(built) => Ok(built),
            None => in_order(alloc, alphabet, t, operands),
        },
        Err(refused) => Err(refused),
    }
}
