// The walk over an expression: operands first, the left one before the right one.
ghost use Rattle.std.specs.Prelude.{◌≡◌, ◌≤◌, IfOk, length};
ghost use Rattle.rl_types.specs.declared.alphabet.Alphabet.{Alphabet};
ghost use Rattle.rl_automata.specs.Marks.{HasMarks};
ghost use Rattle.rl_automata.specs.Nodes as N;
ghost use Rattle.rl_automata.specs.Nodes.{Node, node_of};
ghost use Rattle.rl_automata.specs.Refused.{sets_in, conditions_in};
ghost use Rattle.rl_fsm.specs.Builds.{StandsFor};
ghost use Rattle.rl_embed.specs.Embeds.{embed_node};
ghost use Rattle.rl_build.specs.Cells.{AreCells, most_of};
ghost use Rattle.rl_build.specs.Chains.{IsGathered};
ghost use Rattle.rl_build.specs.Nodes.{pair_node, IsMadeFor, IsPlain};
ghost use Rattle.rl_build.specs.Trees.{IsBuilt, IsAnswer, AreOperandsBuilt, IsFit, AreFit, wrong_number, IsSmall, IsSmallAnswer};

use crate::built::{Built, Refused};
use crate::cells::Cells;
use crate::chain::{alone, behind, finished, has_no_priors, is_many, sides};
use crate::counting::{joined, most, no_cells, set_cells, with_condition};
use crate::node::{labelled, limited, paired, repeated};
use crate::pairing::Pairing;
use rl_automata::{Class, Kind, Label, Tree};
use rl_embed::{How, embed_marks, guard};
use rl_fsm::Fsm;
use rl_ops::BuildFault;
use rl_types::{ActionId, Alphabet, CondId, KeyRange, Memory};
use std::alloc::Global;

// The answer for a node of these cells, whose operands have so many nodes: its machine, or why there is none.
fn answer(machine: Result<Fsm, BuildFault>, cells: Cells, nodes: u32) -> Result<Built, Refused>
    requires { nodes ≤ 300000 }
    ensures { (alphabet : Alphabet) (t : Node) → AreOperandsBuilt alphabet t nodes → AreCells alphabet (sets_in t) (conditions_in t) cells → IsMadeFor t (most_of cells) machine → IsAnswer alphabet t result }
{
    match machine {
        Ok(machine) => Ok(Built {
            machine,
            cells,
            nodes: nodes + 1,
        }),
        Err(fault) => Err(Refused { fault, node: nodes }),
    }
}

// The answer for a leaf, an embedding or a condition.
fn plain_answer(
    machine: Result<Fsm, Memory>,
    cells: Result<Cells, Memory>,
    nodes: u32,
) -> Result<Built, Refused>
    requires { nodes ≤ 300000 }
    ensures { (alphabet : Alphabet) (t : Node) → AreOperandsBuilt alphabet t nodes → IsPlain t → HasMarks t → IfOk cells (AreCells alphabet (sets_in t) (conditions_in t)) → IfOk machine (StandsFor t) → IsAnswer alphabet t result }
{
    match cells {
        Ok(cells) => {
            let made = limited(machine, most(&cells));
            answer(made, cells, nodes)
        }
        Err(Memory) => Err(Refused {
            fault: BuildFault::Memory,
            node: nodes,
        }),
    }
}

// One character of a set.
fn character(alloc: Global, alphabet: Alphabet, set: &[KeyRange]) -> Result<Built, Refused>
    requires { length set.now ≤ 25600000 }
    ensures { IsAnswer alphabet (N.Set set.now) result }
{
    let cells = set_cells(alloc, alphabet, set);
    plain_answer(Fsm::of_set(alloc, set), cells, 0)
}

// The empty word.
fn null(alloc: Global, alphabet: Alphabet) -> Result<Built, Refused>
    ensures { IsAnswer alphabet N.Null result }
{
    let cells = no_cells(alloc, alphabet);
    plain_answer(Fsm::of_null(alloc), cells, 0)
}

// No word.
fn nothing(alloc: Global, alphabet: Alphabet) -> Result<Built, Refused>
    ensures { IsAnswer alphabet N.Nothing result }
{
    let cells = no_cells(alloc, alphabet);
    plain_answer(Fsm::of_nothing(alloc), cells, 0)
}

// Two operands that are built, and their operator.
pub fn both(
    alloc: Global,
    alphabet: Alphabet,
    how: Pairing,
    left: Built,
    right: Built,
) -> Result<Built, Refused>
    requires left { IsSmall left }
    requires right { IsSmall right }
    ensures { (s t : Node) → IsBuilt alphabet s left → IsBuilt alphabet t right → IsAnswer alphabet (pair_node how s t) result }
{
    let nodes = left.nodes + right.nodes;
    match joined(alloc, alphabet, left.cells, right.cells) {
        Ok(cells) => {
            let made = paired(alloc, how, &left.machine, &right.machine, most(&cells));
            answer(made, cells, nodes)
        }
        Err(Memory) => Err(Refused {
            fault: BuildFault::Memory,
            node: nodes,
        }),
    }
}

// A left operand that is built, and the right one's answer.
fn pair(
    alloc: Global,
    alphabet: Alphabet,
    how: Pairing,
    left: Built,
    right: Result<Built, Refused>,
) -> Result<Built, Refused>
    requires left { IsSmall left }
    requires right { IsSmallAnswer right }
    ensures { (s t : Node) → IsBuilt alphabet s left → IsAnswer alphabet t right → IsAnswer alphabet (pair_node how s t) result }
{
    match right {
        Ok(right) => both(alloc, alphabet, how, left, right),
        Err(refused) => Err(Refused {
            fault: refused.fault,
            node: left.nodes + refused.node,
        }),
    }
}

// A repetition.
fn rounds(alloc: Global, operand: Result<Built, Refused>, base: u32) -> Result<Built, Refused>
    requires { IsSmallAnswer operand }
    ensures { (alphabet : Alphabet) (t : Node) → IsAnswer alphabet t operand → IsAnswer alphabet (N.Star t base) result }
{
    match operand {
        Ok(operand) => {
            let made = repeated(alloc, &operand.machine, base, most(&operand.cells));
            answer(made, operand.cells, operand.nodes)
        }
        Err(refused) => Err(refused),
    }
}

// An action or a priority on transitions.
fn embedding(
    alloc: Global,
    operand: Result<Built, Refused>,
    how: How,
    label: Label,
) -> Result<Built, Refused>
    requires { IsSmallAnswer operand }
    ensures { (alphabet : Alphabet) (t : Node) → IsAnswer alphabet t operand → IsAnswer alphabet (embed_node how t label) result }
{
    match operand {
        Ok(operand) => {
            let machine = labelled(alloc, operand.machine, how, label);
            plain_answer(machine, Ok(operand.cells), operand.nodes)
        }
        Err(refused) => Err(refused),
    }
}

// An action that stays with states.
fn mark(
    alloc: Global,
    operand: Result<Built, Refused>,
    class: Class,
    kind: Kind,
    stamp: u32,
    action: ActionId,
) -> Result<Built, Refused>
    requires { IsSmallAnswer operand }
    ensures { (alphabet : Alphabet) (t : Node) → IsAnswer alphabet t operand → IsAnswer alphabet (N.Mark t class kind stamp action.0) result }
{
    match operand {
        Ok(operand) => {
            let machine = embed_marks(alloc, operand.machine, class, kind, stamp, action);
            plain_answer(machine, Ok(operand.cells), operand.nodes)
        }
        Err(refused) => Err(refused),
    }
}

// A condition.
fn guarded(
    alloc: Global,
    operand: Result<Built, Refused>,
    condition: CondId,
) -> Result<Built, Refused>
    requires small { IsSmallAnswer operand }
    requires number { wrong_number condition.0 ≡ 0 }
    ensures { (alphabet : Alphabet) (t : Node) → IsAnswer alphabet t operand → IsAnswer alphabet (N.When t condition.0) result }
{
    match operand {
        Ok(operand) => {
            let machine = guard(alloc, operand.machine, condition);
            let cells = with_condition(operand.cells, condition.0);
            plain_answer(machine, cells, operand.nodes)
        }
        Err(refused) => Err(refused),
    }
}

// An operator of two operands.
#[cycle(expression)]
fn operator(
    alloc: Global,
    alphabet: Alphabet,
    how: Pairing,
    a: &Tree,
    b: &Tree,
) -> Result<Built, Refused>
    requires { AreFit (node_of a.now) (node_of b.now) }
    ensures answer { IsAnswer alphabet (pair_node how (node_of a.now) (node_of b.now)) result }
    ensures small { IsSmallAnswer result }
{
    match expression(alloc, alphabet, a) {
        Ok(left) => pair(alloc, alphabet, how, left, expression(alloc, alphabet, b)),
        Err(refused) => Err(refused),
    }
}

// The operands of a union, or the first of its nodes that is refused.
#[cycle(expression)]
fn operands_of_both(
    alloc: Global,
    alphabet: Alphabet,
    a: &Tree,
    b: &Tree,
) -> Result<Vec<Built>, Refused>
    requires { AreFit (node_of a.now) (node_of b.now) }
    ensures { IsGathered alphabet (N.Union (node_of a.now) (node_of b.now)) result }
{
    match operands(alloc, alphabet, a) {
        Ok(before) => behind(alloc, alphabet, a, before, expression(alloc, alphabet, b)),
        Err(refused) => Err(refused),
    }
}

// The operands of an expression, or the first of its nodes that is refused.
#[cycle(expression)]
fn operands(alloc: Global, alphabet: Alphabet, t: &Tree) -> Result<Vec<Built>, Refused>
    requires { IsFit (node_of t.now) }
    ensures { IsGathered alphabet (node_of t.now) result }
{
    match sides(t) {
        Some((a, b)) => operands_of_both(alloc, alphabet, a, b),
        None => alone(alloc, expression(alloc, alphabet, t)),
    }
}

/// The machine of an expression, or the first of its nodes that is refused.
#[cycle(expression)]
pub fn expression(alloc: Global, alphabet: Alphabet, t: &Tree) -> Result<Built, Refused>
    requires { IsFit (node_of t.now) }
    ensures answer { IsAnswer alphabet (node_of t.now) result }
    ensures small { IsSmallAnswer result }
{
    match t {
        Tree::Set(set) => character(alloc, alphabet, set.as_slice()),
        Tree::Null => null(alloc, alphabet),
        Tree::Nothing => nothing(alloc, alphabet),
        Tree::Union(a, b) => {
            if is_many(a) && has_no_priors(t) {
                finished(alloc, alphabet, t, operands_of_both(alloc, alphabet, a, b))
            } else {
                operator(alloc, alphabet, Pairing::Union, a, b)
            }
        }
        Tree::And(a, b) => operator(alloc, alphabet, Pairing::And, a, b),
        Tree::Minus(a, b) => operator(alloc, alphabet, Pairing::Minus, a, b),
        Tree::Cat(a, b) => operator(alloc, alphabet, Pairing::Cat, a, b),
        Tree::Star(a, base) => rounds(alloc, expression(alloc, alphabet, a), *base),
        Tree::Enter(a, x) => embedding(alloc, expression(alloc, alphabet, a), How::Enter, *x),
        Tree::Finish(a, x) => embedding(alloc, expression(alloc, alphabet, a), How::Finish, *x),
        Tree::All(a, x) => embedding(alloc, expression(alloc, alphabet, a), How::All, *x),
        Tree::Leave(a, x) => embedding(alloc, expression(alloc, alphabet, a), How::Leave, *x),
        Tree::Mark(a, class, kind, stamp, action) => {
            mark(
                alloc,
                expression(alloc, alphabet, a),
                *class,
                *kind,
                *stamp,
                *action,
            )
        }
        Tree::When(a, condition) => guarded(alloc, expression(alloc, alphabet, a), *condition),
    }
}
