//! Numbers of arrays.
ghost use Rattle.std.specs.Prelude.{◌≡◌, ◌^◌, ◌<◌, ◌↔◌, IsTrue, pos, ◌≤ℤ◌, ◌<ℤ◌};
ghost use Rattle.rl_arrays.specs.Words.{natural, IsBetween, IsAt, IfAt};
ghost use Rattle.rl_arrays.specs.Rules.{IsState, IsEntry, IsAction, HasKind, MayHaveKind};

use rl_arrays::Arrays;

/// A number as a count; a negative one counts as 0.
pub(crate) fn count_of(n: i64) -> usize
    ensures value { result ≡ natural n }
    ensures small { result < 2 ^ 63 }
{
    if n < 0 { 0 } else { n as usize }
}

pub(crate) fn is_between(low: u32, high: u32, n: i64) -> bool
    ensures { IsTrue result ↔ IsBetween low high n }
{
    i64::from(low) <= n && n <= i64::from(high)
}

pub(crate) fn is_at_most(n: i64, most: usize) -> bool
    ensures { IsTrue result ↔ (n ≤ℤ pos most) }
{
    n < 0 || n as usize <= most
}

pub(crate) fn is_below(n: i64, end: usize) -> bool
    ensures { IsTrue result ↔ (n <ℤ pos end) }
{
    n < 0 || (n as usize) < end
}

/// Whether the number is that of a state.
pub(crate) fn is_state(a: &Arrays, n: i64) -> bool
    ensures { IsTrue result ↔ IsState a.now n }
{
    0 <= n && is_below(n, a.key_offsets.len())
}

/// Whether the number is that of an entry.
pub(crate) fn is_entry(a: &Arrays, n: i64) -> bool
    ensures { IsTrue result ↔ IsEntry a.now n }
{
    1 <= n && is_below(n, a.entry_names.len())
}

/// Whether the number is that of an action.
pub(crate) fn is_action(a: &Arrays, n: i64) -> bool
    ensures { IsTrue result ↔ IsAction a.now n }
{
    1 <= n && is_below(n, a.action_names.len())
}

/// Whether the state has one of these kinds.
pub(crate) fn has_kind(a: &Arrays, s: usize, low: u32, high: u32) -> bool
    ensures { IsTrue result ↔ HasKind a.now s low high }
{
    match a.state_kinds.get(s) {
        Some(kind) => is_between(low, high, *kind),
        None => false,
    }
}

/// Whether the state's kind, if it is there, is one of these.
pub(crate) fn may_have_kind(a: &Arrays, s: usize, low: u32, high: u32) -> bool
    ensures { IsTrue result ↔ MayHaveKind a.now s low high }
{
    match a.state_kinds.get(s) {
        Some(kind) => is_between(low, high, *kind),
        None => true,
    }
}
