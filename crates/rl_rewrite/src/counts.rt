// The numbers that a walk gives.
ghost use Rattle.std.specs.Prelude.{◌≡◌, ◌+◌, ◌-◌, ◌≤◌, ◌<◌, ◌^◌, length, IfOk, OnOk};
ghost use Rattle.rl_rewrite.specs.Walk as w;
ghost use Rattle.rl_rewrite.specs.Walk.{names_before, conditions_before, with_name, with_new_name, with_condition, new_name};
ghost use Rattle.rl_rewrite.specs.Steps.{AreFew};

use rl_types::{ActionId, CondId, List};
use std::alloc::AllocError;

/// The last stamp, the priority names by their numbers (None is a name that rewriting made), and the conditions by
/// theirs, of which no more than nine are kept.
#[derive(Debug, Drop)]
pub struct Counts {
    pub stamp: u32,
    pub names: List<Option<u32>>,
    pub conditions: List<ActionId>,
}

// The next stamp.
pub fn next(counts: &mut Counts) -> u32
    requires { counts.old.stamp < 2 ^ 32 - 1 }
    ensures stamp { result ≡ counts.old.stamp + 1 }
    ensures counts { counts.new ≡ w.stamped counts.old }
{
    counts.stamp += 1;
    counts.stamp
}

fn is_name(n: Option<u32>, name: u32) -> bool
    ensures { result ≡ w.is_name name n }
{
    match n {
        None => false,
        Some(m) => m == name,
    }
}

// How many names stand before this one, or in all where it is not there.
fn names_before_in(names: &[Option<u32>], name: u32) -> usize
    ensures before { result ≡ names_before name names.now }
    ensures within { result ≤ length names.now }
{
    names.iter().take_while(|n| !is_name(**n, name)).count()
}

// The number of a priority name, which is new where it was not there.
pub fn name_number(counts: &mut Counts, name: u32) -> Result<u32, AllocError>
    requires stamps { counts.old.stamp < 2 ^ 32 - 1 }
    requires few { AreFew counts.old }
    ensures number { IfOk result (λ n. n ≡ names_before name counts.old.names + 1) }
    ensures counts { OnOk result (counts.new ≡ with_name name counts.old) }
    ensures few { OnOk result (length counts.new.names ≤ counts.new.stamp + 1) }
{
    let before = names_before_in(counts.names.as_slice(), name);
    if before == counts.names.len() {
        counts.names.push(Some(name))?;
    }
    Ok(before as u32 + 1)
}

// The number of a name that no other has.
pub fn made_name(counts: &mut Counts) -> Result<u32, AllocError>
    requires stamps { counts.old.stamp < 2 ^ 32 - 1 }
    requires few { AreFew counts.old }
    ensures number { IfOk result (λ n. n ≡ new_name counts.old) }
    ensures counts { OnOk result (counts.new ≡ with_new_name counts.old) }
{
    counts.names.push(None)?;
    Ok(counts.names.len() as u32)
}

// How many conditions stand before this one, or in all where it is not there.
fn conditions_before_in(conditions: &[ActionId], x: ActionId) -> usize
    ensures before { result ≡ conditions_before x conditions.now }
    ensures within { result ≤ length conditions.now }
{
    conditions.iter().take_while(|y| y.0 != x.0).count()
}

// The number of a condition, which is new where it was not there.
pub fn condition_number(counts: &mut Counts, x: ActionId) -> Result<CondId, AllocError>
    requires few { AreFew counts.old }
    ensures number { IfOk result (λ n. n.0 ≡ conditions_before x counts.old.conditions + 1) }
    ensures counts { OnOk result (counts.new ≡ with_condition x counts.old) }
    ensures few { OnOk result (AreFew counts.new) }
{
    let before = conditions_before_in(counts.conditions.as_slice(), x);
    if before == counts.conditions.len() && counts.conditions.len() < 9 {
        counts.conditions.push(x)?;
    }
    Ok(CondId(before as u8 + 1))
}
