// Whether two states look the same.
ghost use Rattle.std.specs.Prelude.{◌↔◌, ◌<◌, IsTrue, length};
ghost use Rattle.rl_refine.specs.Splits.{SameLists, StayTogether};

use crate::cover::{same_list, step_alike};
use crate::lists::class_in;
use rl_minimal::{MinFsm, MinState};

// Whether the states have the same lists.
fn same_lists(s: &MinState, t: &MinState) -> bool
    ensures { IsTrue result ↔ SameLists s.now t.now }
{
    same_list(s.from.as_slice(), t.from.as_slice())
        && same_list(s.to.as_slice(), t.to.as_slice())
        && same_list(s.eof.as_slice(), t.eof.as_slice())
        && same_list(s.error.as_slice(), t.error.as_slice())
        && same_list(s.token.as_slice(), t.token.as_slice())
}

// Whether the states, by their numbers, are of one class, show the same, and lead to the same classes.
pub(crate) fn stay_together(machine: &MinFsm, classes: &[u32], one: u32, other: u32) -> bool
    requires one { one < length machine.now.states }
    requires other { other < length machine.now.states }
    ensures { IsTrue result ↔ StayTogether machine.now classes.now one other }
{
    let _ = machine.states();
    let (s, t) = (machine.state(one), machine.state(other));
    let same_class = class_in(classes, one) == class_in(classes, other);
    let both_errors = (one == 0) == (other == 0);
    let same_verdict = (machine.first_final() <= one) == (machine.first_final() <= other);
    let same_home = class_in(classes, s.home) == class_in(classes, t.home);
    same_class
        && both_errors
        && same_verdict
        && s.kind == t.kind
        && same_home
        && same_lists(s, t)
        && step_alike(classes, s.edges.as_slice(), t.edges.as_slice())
}
