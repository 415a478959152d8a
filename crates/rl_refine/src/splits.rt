// Classes that are split by what their states show, and where these lead.
ghost use Rattle.std.specs.Prelude.{◌≡◌, ◌<◌, ◌+◌, IfOk, length, slice_set};
ghost use Rattle.rl_refine.specs.Splits.{AreZeros, IsFirst, AreSplit, AreCoarse};
ghost use Rattle.rl_refine.specs.Links.{AreLinked, IsPlace};

use crate::lists::{class_in, push};
use crate::looks::stay_together;
use rl_minimal::MinFsm;
use rl_types::Memory;
use std::alloc::Global;

// Where a state stands among the first states of its class.
#[derive(Clone, Copy, Debug, PartialEq, Eq)]
pub(crate) enum Place {
    /// It stays together with this first state.
    With(u32),
    /// It is a first state itself, behind this one.
    Behind(u32),
}

// A zero for each state.
#[tactic(auto, using(crate::proofs::SplitLaws::no_zeros, crate::proofs::SplitLaws::more_zeros))]
fn zeros(alloc: Global, machine: &MinFsm) -> Result<Vec<u32>, Memory>
    ensures { IfOk result (λ v. AreZeros v.items (length machine.now.states)) }
{
    let mut numbers = Vec::new(alloc);
    for _state in 0..machine.states() {
        push(&mut numbers, 0)?;
    }
    Ok(numbers)
}

// One class for all states.
#[tactic(auto, using(crate::proofs::SplitLaws::zeros_coarse))]
pub(crate) fn one_class(alloc: Global, machine: &MinFsm) -> Result<Vec<u32>, Memory>
    ensures { IfOk result (λ v. AreCoarse machine.now v.items) }
{
    let classes = zeros(alloc, machine)?;
    Ok(classes)
}

// No first states yet.
#[tactic(auto, using(crate::proofs::LinkLaws::zeros_linked))]
fn no_links(alloc: Global, machine: &MinFsm, classes: &[u32]) -> Result<Vec<u32>, Memory>
    ensures { IfOk result (λ v. AreLinked machine.now classes.now v.items 0) }
{
    let _ = classes;
    let links = zeros(alloc, machine)?;
    Ok(links)
}

// The place of a state; `later` has for each first state the next one of its class.
#[tactic(auto, using(crate::proofs::LinkLaws::on_start, crate::proofs::LinkLaws::on_self, crate::proofs::LinkLaws::on_with, crate::proofs::LinkLaws::on_behind, crate::proofs::LinkLaws::on_next))]
fn place_of(machine: &MinFsm, classes: &[u32], later: &[u32], state: u32) -> Place
    requires there { state < length machine.now.states }
    requires coarse { AreCoarse machine.now classes.now }
    requires linked { AreLinked machine.now classes.now later.now state }
    ensures { IsPlace machine.now classes.now later.now state result }
{
    let mut at = class_in(classes, state);
    'firsts: while at != state {
        if stay_together(machine, classes, at, state) {
            return Place::With(at);
        }
        let next = class_in(later, at);
        if next == 0 {
            return Place::Behind(at);
        }
        at = next;
    }
    Place::With(state)
}

// Puts a state behind the last first state of its class.
fn link(later: &mut Vec<u32>, last: u32, state: u32)
    requires { last < length later.old.items }
    ensures { later.new.items ≡ slice_set later.old.items last state }
{
    later[last as usize] = state;
}

// The first state that stays together with this one.
#[tactic(auto, using(crate::proofs::LinkLaws::linked_with, crate::proofs::LinkLaws::linked_behind))]
fn first_of(machine: &MinFsm, classes: &[u32], later: &mut Vec<u32>, state: u32) -> u32
    requires there { state < length machine.now.states }
    requires coarse { AreCoarse machine.now classes.now }
    requires linked { AreLinked machine.now classes.now later.old.items state }
    ensures first { IsFirst machine.now classes.now state result }
    ensures linked { AreLinked machine.now classes.now later.new.items (state + 1) }
{
    match place_of(machine, classes, later.as_slice(), state) {
        Place::With(first) => first,
        Place::Behind(last) => {
            link(later, last, state);
            state
        }
    }
}

// The classes of the states that stay together.
#[tactic(auto, using(crate::proofs::SplitLaws::split_none, crate::proofs::SplitLaws::split_more, crate::proofs::SplitLaws::split_all))]
pub(crate) fn split(alloc: Global, machine: &MinFsm, classes: &[u32]) -> Result<Vec<u32>, Memory>
    requires { AreCoarse machine.now classes.now }
    ensures { IfOk result (λ v. AreSplit machine.now classes.now v.items) }
{
    let mut later = no_links(alloc, machine, classes)?;
    let mut firsts = Vec::new(alloc);
    for state in 0..machine.states() {
        let first = first_of(machine, classes, &mut later, state);
        push(&mut firsts, first)?;
    }
    Ok(firsts)
}
