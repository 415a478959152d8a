// The state of a configuration.
ghost use Rattle.std.specs.Prelude.{◌≡◌, ◌<◌, ◌≤◌, Some, IfOk, IfErr, length, slice_get};
ghost use Rattle.rl_explore.specs.Numbers.{IsFull, Overflows, LeadsTo, IsTold, IsMade};

use crate::fault::BuildFault;
use crate::made::{Made, Told};
use crate::names::Names;
use crate::number::numbered;
use crate::operator::Operator;
use crate::row::{Row, row_of};
use rl_fsm::{Out, State};
use rl_labels::Carry;
use rl_types::Memory;
use std::alloc::Global;

// What is told of the configuration.
fn told<O: Operator>(alloc: Global, op: &O, c: &O::Conf) -> Result<Told<O::Conf>, Memory>
    ensures { IfOk result (IsTold (O.auto op.now) (O.jams op.now) c.now) }
{
    let row = row_of(alloc, op, c)?;
    let fin = op.is_final(c);
    let out = op.out(alloc, c)?;
    let marks = op.marks(alloc, c)?;
    Ok(Told {
        row,
        fin,
        out,
        marks,
    })
}

// The configuration of this number.
fn named<O: Operator>(names: &Names<O::Conf>, number: usize) -> &O::Conf
    requires { number < length names.now }
    ensures { slice_get names.now number ≡ Some result.now }
{
    match names.get(number) {
        Some(c) => c,
        None => unreachable!(),
    }
}

// The state of the configuration of this number.
pub fn state_of<O: Operator>(
    alloc: Global,
    op: &O,
    names: &mut Names<O::Conf>,
    number: usize,
    room: u32,
) -> Result<Made, BuildFault>
    requires there { number < length names.old }
    requires few { length names.old ≤ room }
    ensures made { IfOk result (λ m. (c : O.Conf) × (slice_get names.old number ≡ Some c) × IsMade (O.auto op.now) (O.jams op.now) c names.old names.new m) }
    ensures few { IfOk result (λ _. length names.new ≤ room) }
    ensures full { IfErr result (IsFull ((c : O.Conf) × (slice_get names.old number ≡ Some c) × Overflows room names.old (LeadsTo (O.auto op.now) c))) }
{
    let c = named::<O>(names, number);
    let Told {
        row,
        fin,
        out,
        marks,
    } = told(alloc, op, c)?;
    let Row { found, cycle } = row;
    let edges = numbered::<O>(alloc, names, found, room)?;
    let Carry { actions, table } = out;
    let state = State {
        fin,
        out: Out {
            actions,
            priors: table,
        },
        marks,
        edges: rl_types::List::from_vec(edges),
    };
    Ok(Made { state, cycle })
}
