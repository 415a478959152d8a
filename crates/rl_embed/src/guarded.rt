// Machines with a condition.
ghost use Rattle.std.specs.Prelude.{◌≤◌};

use rl_fsm::Fsm;
use rl_types::CondId;

// A machine, and the condition, of 1 to 8, that each of its steps wants.
#[derive(Clone, Copy)]
pub struct Guard<'a> {
    pub machine: &'a Fsm,
    pub cond: CondId,
    ghost first: { 1 ≤ cond.0 },
    ghost last: { cond.0 ≤ 8 },
}
