// Numbers of configurations.
ghost use Rattle.std.specs.Prelude.{◌≡◌, ◌≤◌, IfOk, IfErr, length};
ghost use Rattle.rl_sets.specs.Sets.{In};
ghost use Rattle.rl_explore.specs.Numbers.{HasNumber, IsFull, AreNumbered, Overflows, tos};

use crate::fault::BuildFault;
use crate::found::Found;
use crate::lists::push;
use crate::names::Names;
use crate::operator::Operator;
use rl_fsm::Edge;
use rl_labels::Carry;
use std::alloc::Global;

// The number of the configuration, which is the next one where it has none yet; L6 where there is no room for it.
pub fn number<O: Operator>(
    names: &mut Names<O::Conf>,
    c: O::Conf,
    room: u32,
) -> Result<u32, BuildFault>
    requires { length names.old ≤ room }
    ensures number { IfOk result (λ n. HasNumber names.old names.new c n) }
    ensures few { IfOk result (λ _. length names.new ≤ room) }
    ensures full { IfErr result (IsFull ((length names.old ≡ room) × ¬ In c names.old)) }
{
    let number = names.insert(c)?;
    if number >= room as usize {
        return Err(BuildFault::L6);
    }
    Ok(number as u32)
}

// Edges with numbers in place of the configurations; those that have none yet get the next.
pub fn numbered<O: Operator>(
    alloc: Global,
    names: &mut Names<O::Conf>,
    found: Vec<Found<O::Conf>>,
    room: u32,
) -> Result<Vec<Edge>, BuildFault>
    requires { length names.old ≤ room }
    ensures numbered { IfOk result (λ es. AreNumbered names.old names.new found.items es.items) }
    ensures few { IfOk result (λ _. length names.new ≤ room) }
    ensures full { IfErr result (IsFull (Overflows room names.old (λ x. In x (tos found.items)))) }
{
    let mut edges = Vec::new(alloc);
    for f in found {
        let Found {
            range,
            asks,
            truths,
            to,
            carry,
        } = f;
        let Carry { actions, table } = carry;
        let target = number::<O>(names, to, room)?;
        let edge = Edge {
            range,
            asks,
            truths,
            target,
            actions,
            priors: table,
        };
        push(&mut edges, edge)?;
    }
    Ok(edges)
}
