// What edges and states carry, in memory of its own.
ghost use Rattle.std.specs.Prelude.{◌≡◌, cond, IfOk};
ghost use Rattle.rl_labels.specs.Carries.{both_of};
ghost use Rattle.rl_embed.specs.Changed.{carried};
ghost use Rattle.rl_embed.specs.Guarded.{no_marks};

use crate::lists::push;
use rl_fsm::{Edge, Marks, Out};
use rl_labels::{Carry, Priors, Stamped};
use rl_types::Memory;
use std::alloc::Global;

// The actions and the priorities and, where it is due, the label beside them.
pub fn carried(
    alloc: Global,
    due: bool,
    label: &Carry,
    actions: &Stamped,
    priors: &Priors,
) -> Result<Carry, Memory>
    ensures { IfOk result (λ c. c ≡ carried due label.now (record { actions = actions.now; table = priors.now })) }
{
    let own = Carry {
        actions: actions.copy(alloc)?,
        table: priors.copy(alloc)?,
    };
    if due {
        label.with(alloc, &own)
    } else {
        Ok(own)
    }
}

// No marks.
pub fn no_marks(alloc: Global) -> Marks
    ensures { result ≡ no_marks }
{
    Marks {
        to: Stamped::new(alloc),
        from: Stamped::new(alloc),
        eof: Stamped::new(alloc),
        error: Stamped::new(alloc),
    }
}

// The same marks.
pub fn copied_marks(alloc: Global, marks: &Marks) -> Result<Marks, Memory>
    ensures { IfOk result (λ m. m ≡ marks.now) }
{
    Ok(Marks {
        to: marks.to.copy(alloc)?,
        from: marks.from.copy(alloc)?,
        eof: marks.eof.copy(alloc)?,
        error: marks.error.copy(alloc)?,
    })
}

// The same edge.
fn copied_edge(alloc: Global, edge: &Edge) -> Result<Edge, Memory>
    ensures { IfOk result (λ e. e ≡ edge.now) }
{
    Ok(Edge {
        range: edge.range,
        asks: edge.asks,
        truths: edge.truths,
        target: edge.target,
        actions: edge.actions.copy(alloc)?,
        priors: edge.priors.copy(alloc)?,
    })
}

// The same edges.
pub fn copied_edges(alloc: Global, edges: &[Edge]) -> Result<Vec<Edge>, Memory>
    ensures { IfOk result (λ v. v.items ≡ edges.now) }
{
    let mut copies: Vec<Edge> = Vec::new(alloc);
    for edge in edges {
        let copy = copied_edge(alloc, edge)?;
        push(&mut copies, copy)?;
    }
    Ok(copies)
}

// The same out.
pub fn copied_out(alloc: Global, out: &Out) -> Result<Out, Memory>
    ensures { IfOk result (λ o. o ≡ out.now) }
{
    Ok(Out {
        actions: out.actions.copy(alloc)?,
        priors: out.priors.copy(alloc)?,
    })
}
