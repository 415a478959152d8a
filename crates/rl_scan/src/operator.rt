// Machines side by side as an operator.
ghost use Rattle.std.specs.Prelude.{◌≡◌, IfOk};
ghost use Rattle.rl_explore.specs.Steps.{move_in, is_cycle};
ghost use Rattle.rl_scan.specs.Beside.{side_auto, side_jams, steps_at, settled, is_jammed};
ghost use Rattle.rl_scan.specs.Same.{parts_same};

use crate::beside::{all_asked, all_marks, all_ranges, all_starts, any_final, first_out, steps_at};
use crate::parts::Parts;
use crate::settle::settle;
use rl_automata::Kind;
use rl_explore::{Operator, Step};
use rl_fsm::{Fsm, Marks};
use rl_labels::{Carry, Stamped, Truths};
use rl_types::{KeyRange, Letter, Memory};
use std::alloc::Global;

// Machines side by side.
#[derive(Clone, Copy)]
pub struct Side<'a> {
    pub machines: &'a [Fsm],
}

// What they do on the letter.
pub fn side_step(
    alloc: Global,
    machines: &[Fsm],
    parts: &[Option<u32>],
    letter: Letter,
) -> Result<Step<Parts>, Memory>
    ensures step { IfOk result (λ s. move_in s ≡ settled (steps_at machines.now parts.now letter)) }
    ensures cycle { IfOk result (λ s. is_cycle s ≡ is_jammed (steps_at machines.now parts.now letter)) }
{
    let steps = steps_at(alloc, machines, parts, letter)?;
    settle(alloc, &steps)
}

// The marks of the kind of all machines.
fn side_marks(
    alloc: Global,
    machines: &[Fsm],
    parts: &[Option<u32>],
    kind: Kind,
) -> Result<Stamped, Memory>
    ensures { IfOk result (λ s. s ≡ (side_auto machines.now).marks parts.now kind) }
{
    let marks = all_marks(alloc, machines, parts, kind)?;
    Stamped::of(alloc, &marks)
}

impl<'a> Operator for Side<'a> {
    type Conf = Parts;

    ghost auto = { λ p. side_auto p.machines.now };

    ghost jams = { λ p c l. side_jams p.machines.now c l };

    fn start(&self, alloc: Global) -> Result<Parts, Memory> {
        let starts = all_starts(alloc, self.machines)?;
        Ok(Parts::of(starts))
    }

    fn ranges(&self, alloc: Global, c: &Parts) -> Result<Vec<KeyRange>, Memory> {
        let ranges = all_ranges(alloc, self.machines, c.states())?;
        Ok(ranges)
    }

    fn asked(&self, c: &Parts, at: Letter) -> Truths {
        all_asked(self.machines, c.states(), at)
    }

    fn step(&self, alloc: Global, c: &Parts, letter: Letter) -> Result<Step<Parts>, Memory> {
        let step = side_step(alloc, self.machines, c.states(), letter)?;
        Ok(step)
    }

    fn is_final(&self, c: &Parts) -> bool {
        any_final(self.machines, c.states())
    }

    fn out(&self, alloc: Global, c: &Parts) -> Result<Carry, Memory> {
        first_out(alloc, self.machines, c.states())
    }

    fn marks(&self, alloc: Global, c: &Parts) -> Result<Marks, Memory> {
        Ok(Marks {
            to: side_marks(alloc, self.machines, c.states(), Kind::To)?,
            from: side_marks(alloc, self.machines, c.states(), Kind::From)?,
            eof: side_marks(alloc, self.machines, c.states(), Kind::Eof)?,
            error: side_marks(alloc, self.machines, c.states(), Kind::Error)?,
        })
    }

    ghost same = { parts_same };
}
