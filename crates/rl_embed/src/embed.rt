// Actions and priorities on transitions.
ghost use Rattle.std.specs.Prelude.{◌≡◌, ◌<◌, ◌∷◌, [], IfOk, Some, length, map};
ghost use Rattle.rl_labels.specs.declared.carry.Carry.{Carry};
ghost use Rattle.rl_automata.specs.Follows.{Follows};
ghost use Rattle.rl_automata.specs.Nodes.{Node, carry_of};
ghost use Rattle.rl_automata.specs.declared.tree.Label.TheVariants as L;
ghost use Rattle.rl_fsm.specs.Builds.{IsNumbered, StandsFor};
ghost use Rattle.rl_fsm.specs.Graphs.{fsm_auto, state_at};
ghost use Rattle.rl_fsm.specs.Sound.{IsSound};
ghost use Rattle.rl_embed.specs.Embeds.{on_step, on_out, embed_auto, embed_node};
ghost use Rattle.rl_embed.specs.Changed.{embedded_edge, embedded_state, changed_from, embedded};

use crate::copies::{carried, copied_marks};
use crate::how::How;
use crate::lists::push;
use crate::machine::{is_start, state_of, with_states};
use rl_fsm::{Edge, Fsm, Out, State, look_ups};
use rl_labels::{Carry, Prior};
use rl_types::{ActionId, Memory};
use std::alloc::Global;

// A machine, and a label with where it is put.
#[derive(Clone, Copy)]
struct Embedding<'a> {
    machine: &'a Fsm,
    how: How,
    label: &'a Carry,
}

// Whether a step from the one state to the other carries the label.
fn is_on_step(e: &Embedding<'_>, from: u32, to: u32) -> bool
    ensures { result ≡ on_step e.now.how (fsm_auto e.now.machine.now) from to }
{
    match e.how {
        How::Enter => is_start(e.machine, from),
        How::Finish => look_ups::is_final(e.machine, to),
        How::All => true,
        How::Leave => false,
    }
}

// Whether the out of the state carries the label.
fn is_on_out(e: &Embedding<'_>, state: u32) -> bool
    ensures { result ≡ on_out e.now.how (fsm_auto e.now.machine.now) state }
{
    match e.how {
        How::Enter => is_start(e.machine, state) && look_ups::is_final(e.machine, state),
        How::Finish => false,
        How::All => false,
        How::Leave => look_ups::is_final(e.machine, state),
    }
}

// The edge out of a state, with the label where it is due.
fn embedded_edge(alloc: Global, e: &Embedding<'_>, from: u32, edge: &Edge) -> Result<Edge, Memory>
    ensures { IfOk result (λ x. x ≡ embedded_edge e.now.how (fsm_auto e.now.machine.now) e.now.label.now from edge.now) }
{
    let due = is_on_step(e, from, edge.target);
    let Carry { actions, table } = carried(alloc, due, e.label, &edge.actions, &edge.priors)?;
    Ok(Edge {
        range: edge.range,
        asks: edge.asks,
        truths: edge.truths,
        target: edge.target,
        actions,
        priors: table,
    })
}

// The edges out of a state, with the label where it is due.
fn embedded_edges(
    alloc: Global,
    e: &Embedding<'_>,
    from: u32,
    edges: &[Edge],
) -> Result<Vec<Edge>, Memory>
    ensures { IfOk result (λ v. v.items ≡ map (embedded_edge e.now.how (fsm_auto e.now.machine.now) e.now.label.now from) edges.now) }
{
    let mut embedded: Vec<Edge> = Vec::new(alloc);
    for edge in edges {
        push(&mut embedded, embedded_edge(alloc, e, from, edge)?)?;
    }
    Ok(embedded)
}

// The state of this number, with the label where it is due.
fn embedded_state(
    alloc: Global,
    e: &Embedding<'_>,
    number: u32,
    state: &State,
) -> Result<State, Memory>
    ensures { IfOk result (λ s. s ≡ embedded_state e.now.how (fsm_auto e.now.machine.now) e.now.label.now number state.now) }
{
    let due = is_on_out(e, number);
    let Carry { actions, table } = carried(
        alloc,
        due,
        e.label,
        &state.out.actions,
        &state.out.priors,
    )?;
    let marks = copied_marks(alloc, &state.marks)?;
    let edges = embedded_edges(alloc, e, number, state.edges.as_slice())?;
    Ok(State {
        fin: state.fin,
        out: Out {
            actions,
            priors: table,
        },
        marks,
        edges: rl_types::List::from_vec(edges),
    })
}

// All states, with the label where it is due.
fn embedded_states(alloc: Global, e: &Embedding<'_>) -> Result<Vec<State>, Memory>
    ensures sound { IsSound e.now.machine.now }
    ensures states { IfOk result (λ v. v.items ≡ changed_from (embedded_state e.now.how (fsm_auto e.now.machine.now) e.now.label.now) 0 e.now.machine.now.states) }
{
    let mut states: Vec<State> = Vec::new(alloc);
    for number in 0..e.machine.states() {
        let state = state_of(e.machine, number);
        let changed = embedded_state(alloc, e, number, state)?;
        push(&mut states, changed)?;
    }
    Ok(states)
}

// The machine with the label where it is due.
fn embedded(alloc: Global, a: &Fsm, how: How, label: &Carry) -> Result<Fsm, Memory>
    ensures sound { IsSound a.now }
    ensures machine { IfOk result (λ m. m ≡ embedded how label.now a.now) }
{
    let e = Embedding {
        machine: a,
        how,
        label,
    };
    let states = embedded_states(alloc, &e)?;
    Ok(with_states(a, states))
}

// An action alone.
fn action_label(alloc: Global, stamp: u32, action: ActionId) -> Result<Carry, Memory>
    ensures { IfOk result (λ c. c ≡ carry_of (L.Action stamp action)) }
{
    let mut label = Carry::none(alloc);
    label.actions.add(stamp, 0, action)?;
    Ok(label)
}

// A priority alone.
fn prior_label(alloc: Global, prior: Prior) -> Result<Carry, Memory>
    ensures { IfOk result (λ c. c ≡ carry_of (L.Prior prior.stamp prior.name prior.value)) }
{
    let mut label = Carry::none(alloc);
    label.table.set(prior.name, prior.stamp, prior.value)?;
    Ok(label)
}

/// The machine with an action embedded: `stamp` is the number that the embedding has in the walk of the expression, and
/// so the action's place among those of a transition (the guide's section 3.1; the walk is this profile's). The states
/// keep their numbers. An `Err` is want of memory, and the machine handed in is gone then.
pub fn embed_actions(
    alloc: Global,
    a: Fsm,
    how: How,
    stamp: u32,
    action: ActionId,
) -> Result<Fsm, Memory>
    ensures follows { IfOk result (λ m. Follows (fsm_auto m) (embed_auto how (fsm_auto a) (carry_of (L.Action stamp action))) (λ i. i)) }
    ensures numbered { IfOk result (λ m. IsNumbered a → IsNumbered m) }
    ensures stands { IfOk result (λ m. (t : Node) → StandsFor t a → StandsFor (embed_node how t (L.Action stamp action)) m) }
{
    let label = action_label(alloc, stamp, action)?;
    let m = embedded(alloc, &a, how, &label)?;
    Ok(m)
}

/// The machine with a priority embedded under the name of this number. `stamp` is the number that the embedding has in
/// the walk of the expression: a later embedding under the same name replaces an earlier one (the guide's sections 4.1
/// and 4.2; the walk is this profile's). The states keep their numbers. An `Err` is want of memory, and the machine
/// handed in is gone then.
pub fn embed_priors(
    alloc: Global,
    a: Fsm,
    how: How,
    name: u32,
    stamp: u32,
    value: i64,
) -> Result<Fsm, Memory>
    ensures follows { IfOk result (λ m. Follows (fsm_auto m) (embed_auto how (fsm_auto a) (carry_of (L.Prior stamp name value))) (λ i. i)) }
    ensures numbered { IfOk result (λ m. IsNumbered a → IsNumbered m) }
    ensures stands { IfOk result (λ m. (t : Node) → StandsFor t a → StandsFor (embed_node how t (L.Prior stamp name value)) m) }
{
    let prior = Prior { name, stamp, value };
    let label = prior_label(alloc, prior)?;
    let m = embedded(alloc, &a, how, &label)?;
    Ok(m)
}
