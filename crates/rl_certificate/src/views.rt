// Whether two states show the same.
ghost use Rattle.std.specs.Prelude.{◌↔◌, ◌<◌, IsTrue, length};
ghost use Rattle.rl_certificate.specs.Views.{ShowSame};
ghost use Rattle.rl_certificate.specs.Sorts.{SameLists, SameKind};

use crate::cover::{same_list, step_alike};
use rl_minimal::{MinFsm, MinState};

// Whether the states have the same lists.
fn same_lists(s: &MinState, t: &MinState) -> bool
    ensures { IsTrue result ↔ SameLists s.now t.now }
{
    same_list(s.from.as_slice(), t.from.as_slice())
        && same_list(s.to.as_slice(), t.to.as_slice())
        && same_list(s.eof.as_slice(), t.eof.as_slice())
        && same_list(s.error.as_slice(), t.error.as_slice())
        && same_list(s.token.as_slice(), t.token.as_slice())
}

// Whether the states have the same kind and, where homes count, the same home.
fn same_kind(homes: bool, s: &MinState, t: &MinState) -> bool
    ensures { IsTrue result ↔ SameKind homes s.now t.now }
{
    s.kind == t.kind && (!homes || s.home == t.home)
}

// Whether the states, by their numbers, show the same.
pub(crate) fn show_same(min: &MinFsm, homes: bool, one: u32, other: u32) -> bool
    requires one { one < length min.now.states }
    requires other { other < length min.now.states }
    ensures { IsTrue result ↔ ShowSame min.now homes one other }
{
    let _ = min.states();
    let (s, t) = (min.state(one), min.state(other));
    let same_verdict = (min.first_final() <= one) == (min.first_final() <= other);
    same_verdict
        && same_lists(s, t)
        && same_kind(homes, s, t)
        && step_alike(s.edges.as_slice(), t.edges.as_slice())
}
