// Series of embeddings.
ghost use Rattle.std.specs.Prelude.{◌≡◌, ◌+◌, ◌-◌, ◌≤◌, ◌<◌, ◌^◌, length, IfOk, OnOk};
ghost use Rattle.rl_draft.specs.declared.expression.Put.TheVariants as v;
ghost use Rattle.rl_rewrite.specs.Walk as w;
ghost use Rattle.rl_rewrite.specs.Steps.{placed_of, AreFew};

use crate::counts::{Counts, condition_number, name_number, next};
use crate::placed::{Placed, layered};
use rl_automata::{Class, Kind, Label};
use rl_draft::{Put, Transitions};
use rl_types::{ActionId, CondId, Place};
use std::alloc::{AllocError, Global};

/// What an embedding puts around a tree.
#[derive(Clone, Copy, Debug, PartialEq, Eq)]
pub enum Layer {
    /// Onto transitions.
    Step(Transitions, Label),
    /// Into states: with its stamp, the action.
    State(Class, Kind, u32, ActionId),
    /// A condition.
    When(CondId),
}

fn priority(
    transitions: Transitions,
    name: u32,
    value: i64,
    counts: &mut Counts,
) -> Result<Layer, AllocError>
    requires stamps { counts.old.stamp < 2 ^ 32 - 1 }
    requires few { AreFew counts.old }
    ensures layer { IfOk result (λ l. (l, counts.new) ≡ w.layer_of (v.Priority transitions name value) counts.old) }
    ensures stamp { OnOk result (counts.new.stamp ≤ counts.old.stamp + 1) }
    ensures few { OnOk result (AreFew counts.new) }
{
    let number = name_number(counts, name)?;
    let stamp = next(counts);
    Ok(Layer::Step(transitions, Label::Prior(stamp, number, value)))
}

fn guard(x: ActionId, counts: &mut Counts) -> Result<Layer, AllocError>
    requires few { AreFew counts.old }
    ensures layer { IfOk result (λ l. (l, counts.new) ≡ w.layer_of (v.When x) counts.old) }
    ensures few { OnOk result (AreFew counts.new) }
{
    let condition = condition_number(counts, x)?;
    Ok(Layer::When(condition))
}

// What an embedding becomes where its turn comes.
fn layer_of(put: Put, counts: &mut Counts) -> Result<Layer, AllocError>
    requires stamps { counts.old.stamp < 2 ^ 32 - 1 }
    requires few { AreFew counts.old }
    ensures layer { IfOk result (λ l. (l, counts.new) ≡ w.layer_of put counts.old) }
    ensures stamp { OnOk result (counts.new.stamp ≤ counts.old.stamp + 1) }
    ensures few { OnOk result (AreFew counts.new) }
{
    match put {
        Put::Action(t, x) => {
            let stamp = next(counts);
            Ok(Layer::Step(t, Label::Action(stamp, x)))
        }
        Put::Priority(t, name, value) => priority(t, name, value, counts),
        Put::Mark(class, kind, x) => {
            let stamp = next(counts);
            Ok(Layer::State(class, kind, stamp, x))
        }
        Put::When(x) => guard(x, counts),
    }
}

// Whether its turn comes before the operand's walk.
fn is_first(put: Put) -> bool
    ensures { result ≡ w.is_first put }
{
    match put {
        Put::Action(t, _) => matches!(t, Transitions::Entering),
        Put::Priority(t, _, _) => matches!(t, Transitions::Entering),
        Put::Mark(class, _, _) => matches!(class, Class::Start),
        Put::When(_) => false,
    }
}

// The layers of those whose turn comes first.
pub fn first_layers(
    alloc: Global,
    puts: &[Put],
    counts: &mut Counts,
) -> Result<Vec<Option<Layer>>, AllocError>
    requires stamps { counts.old.stamp + length puts.now < 2 ^ 32 - 1 }
    requires few { AreFew counts.old }
    ensures len { IfOk result (λ ls. length ls.items ≡ length puts.now) }
    ensures layers { IfOk result (λ ls. (ls.items, counts.new) ≡ w.first_layers puts.now counts.old) }
    ensures stamp { OnOk result (counts.new.stamp ≤ counts.old.stamp + length puts.now) }
    ensures few { OnOk result (AreFew counts.new) }
{
    let mut layers = Vec::new(alloc);
    for p in puts {
        let l = if is_first(*p) {
            Some(layer_of(*p, counts)?)
        } else {
            None
        };
        layers.push(l)?;
    }
    Ok(layers)
}

// The layer that was given, or the next one.
fn layer_or(l: Option<Layer>, put: Put, counts: &mut Counts) -> Result<Layer, AllocError>
    requires stamps { counts.old.stamp < 2 ^ 32 - 1 }
    requires few { AreFew counts.old }
    ensures layer { IfOk result (λ x. (x, counts.new) ≡ w.layer_or l put counts.old) }
    ensures stamp { OnOk result (counts.new.stamp ≤ counts.old.stamp + 1) }
    ensures few { OnOk result (AreFew counts.new) }
{
    match l {
        None => layer_of(put, counts),
        Some(l) => Ok(l),
    }
}

// A series around a tree: those that have no layer get one.
pub fn around(
    alloc: Global,
    puts: &[Put],
    layers: &[Option<Layer>],
    at: Place,
    x: Placed,
    counts: &mut Counts,
) -> Result<Placed, AllocError>
    requires stamps { counts.old.stamp + length puts.now < 2 ^ 32 - 1 }
    requires few { AreFew counts.old }
    requires layers { length layers.now ≡ length puts.now }
    ensures tree { IfOk result (λ r. (placed_of r, counts.new) ≡ w.around puts.now layers.now at (placed_of x) counts.old) }
    ensures stamp { OnOk result (counts.new.stamp ≤ counts.old.stamp + length puts.now) }
    ensures few { OnOk result (AreFew counts.new) }
{
    let mut x = x;
    for (i, p) in puts.iter().enumerate() {
        let l = layer_or(layers[i], *p, counts)?;
        x = layered(alloc, l, x, at)?;
    }
    Ok(x)
}
