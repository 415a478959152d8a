// The machine of one node, of those of its operands.
ghost use Rattle.std.specs.Prelude.{◌≤◌, IfOk, MatchOption};
ghost use Rattle.rl_types.specs.Limits.{most_configurations};
ghost use Rattle.rl_automata.specs.declared.tree.Label.{Label};
ghost use Rattle.rl_automata.specs.declared.tree.Label.TheVariants as L;
ghost use Rattle.rl_automata.specs.Marks.{HasMarks};
ghost use Rattle.rl_automata.specs.Nodes as N;
ghost use Rattle.rl_automata.specs.Nodes.{Node};
ghost use Rattle.rl_fsm.specs.Builds.{StandsFor};
ghost use Rattle.rl_embed.specs.Embeds.{embed_node};
ghost use Rattle.rl_build.specs.Nodes.{pair_node, IsOperand, IsMadeFor, IsOver, IsPlain};

use crate::pairing::Pairing;
use rl_automata::Label;
use rl_embed::{How, embed_actions, embed_priors};
use rl_fsm::Fsm;
use rl_labels::Prior;
use rl_ops::{BuildFault, and, cat, minus, or, star};
use rl_types::{MOST_CONFIGURATIONS, Memory};
use std::alloc::Global;

// The machine of an operator of two operands.
pub fn paired(alloc: Global, how: Pairing, a: &Fsm, b: &Fsm, most: u32) -> Result<Fsm, BuildFault>
    ensures { (s t : Node) → IsOperand s a.now → IsOperand t b.now → IsMadeFor (pair_node how s t) most result }
{
    match how {
        Pairing::Union => or(alloc, a, b, most),
        Pairing::And => and(alloc, a, b, most),
        Pairing::Minus => minus(alloc, a, b, most),
        Pairing::Cat => cat(alloc, a, b, most),
    }
}

// The machine of a repetition.
pub fn repeated(alloc: Global, a: &Fsm, base: u32, most: u32) -> Result<Fsm, BuildFault>
    ensures { (t : Node) → IsOperand t a.now → IsMadeFor (N.Star t base) most result }
{
    star(alloc, a, base, most)
}

// The machine with the priority where it is due.
fn prioritised(alloc: Global, a: Fsm, how: How, prior: Prior) -> Result<Fsm, Memory>
    ensures { IfOk result (λ m. (t : Node) → StandsFor t a → StandsFor (embed_node how t (L.Prior prior.stamp prior.name prior.value)) m) }
{
    let machine = embed_priors(alloc, a, how, prior.name, prior.stamp, prior.value)?;
    Ok(machine)
}

// The machine with the label where it is due.
pub fn labelled(alloc: Global, a: Fsm, how: How, label: Label) -> Result<Fsm, Memory>
    ensures { IfOk result (λ m. (t : Node) → StandsFor t a → StandsFor (embed_node how t label) m) }
{
    match label {
        Label::Action(stamp, action) => embed_actions(alloc, a, how, stamp, action),
        Label::Prior(stamp, name, value) => {
            prioritised(alloc, a, how, Prior { name, stamp, value })
        }
    }
}

// The fault of a machine of so many states, if these are too many.
fn fault_of(states: u32, most: u32) -> Option<BuildFault>
    ensures { MatchOption result ((states ≤ most_configurations) × (states ≤ most)) (IsOver states most) }
{
    if states > MOST_CONFIGURATIONS {
        return Some(BuildFault::L6);
    }
    if states > most {
        return Some(BuildFault::L8);
    }
    None
}

// The machine, unless it has too many states.
fn within(machine: Fsm, most: u32) -> Result<Fsm, BuildFault>
    ensures { (t : Node) → IsPlain t → HasMarks t → StandsFor t machine → IsMadeFor t most result }
{
    match fault_of(machine.states(), most) {
        None => Ok(machine),
        Some(fault) => Err(fault),
    }
}

// The machine of a leaf, an embedding or a condition, unless it has too many states.
pub fn limited(machine: Result<Fsm, Memory>, most: u32) -> Result<Fsm, BuildFault>
    ensures { (t : Node) → IsPlain t → HasMarks t → IfOk machine (StandsFor t) → IsMadeFor t most result }
{
    match machine {
        Ok(machine) => within(machine, most),
        Err(Memory) => Err(BuildFault::Memory),
    }
}
