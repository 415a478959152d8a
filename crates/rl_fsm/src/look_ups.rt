//! What a state says, told for every number: a number that no state has does nothing.
ghost use Rattle.std.specs.Prelude.{◌≡◌, map, IfOk};
ghost use Rattle.std.specs.Option.{option_copied};
ghost use Rattle.rl_fsm.specs.Reads.{takes, own_asks, asks_at};
ghost use Rattle.rl_fsm.specs.Graphs.{edge_for, reads_of, move_of, marks_of, ranges_of, ranges_at, fsm_auto};

use crate::edge::Edge;
use crate::fsm::Fsm;
use crate::lists::push;
use crate::state::Marks;
use rl_automata::{Kind, Move};
use rl_labels::{Carry, Stamp, Truths};
use rl_types::{KeyRange, Letter, Memory};
use std::alloc::Global;

// Whether the edge takes the letter.
fn takes(e: &Edge, letter: Letter) -> bool
    ensures { result ≡ takes letter (reads_of e.now) }
{
    e.range.lo() <= letter.key
        && letter.key <= e.range.hi()
        && letter.truths & e.asks.0 == e.truths.0
}

/// The edge that takes the letter; None where none does.
pub fn edge_for(edges: &[Edge], letter: Letter) -> Option<&Edge>
    ensures { option_copied result ≡ edge_for letter edges.now }
{
    edges.iter().find(|e| takes(e, letter))
}

// What the edge asks at the letter's key.
fn own_asks(e: &Edge, at: Letter) -> u8
    ensures { result ≡ own_asks at.key (reads_of e.now) }
{
    if e.range.lo() <= at.key && at.key <= e.range.hi() {
        e.asks.0
    } else {
        0
    }
}

#[tactic(auto, using(crate::proofs::Bits::or_or, crate::proofs::Bits::or_none))]
/// The conditions that the edges ask at the letter's key.
pub fn asks_at(edges: &[Edge], at: Letter) -> Truths
    ensures { result.0 ≡ asks_at at.key (map reads_of edges.now) }
{
    let mut asks = 0;
    for e in edges {
        asks |= own_asks(e, at);
    }
    Truths(asks)
}

// Where the edge leads, and what it carries.
fn move_of(alloc: Global, e: &Edge) -> Result<Move<u32>, Memory>
    ensures { IfOk result (λ m. m ≡ move_of e.now) }
{
    Ok(Move {
        to: e.target,
        carry: Carry {
            actions: e.actions.copy(alloc)?,
            table: e.priors.copy(alloc)?,
        },
    })
}

/// The step of the state on the letter, if there is one. An `Err` is want of memory.
pub fn step(alloc: Global, m: &Fsm, state: u32, letter: Letter) -> Result<Option<Move<u32>>, Memory>
    ensures { IfOk result (λ o. o ≡ (fsm_auto m.now).step state letter) }
{
    match m.state(state) {
        None => Ok(None),
        Some(s) => match edge_for(s.edges.as_slice(), letter) {
            None => Ok(None),
            Some(e) => Ok(Some(move_of(alloc, e)?)),
        },
    }
}

/// The conditions that the state asks at the letter's key.
pub fn asked(m: &Fsm, state: u32, at: Letter) -> Truths
    ensures { result.0 ≡ (fsm_auto m.now).asked state at.key }
{
    match m.state(state) {
        None => Truths(0),
        Some(s) => asks_at(s.edges.as_slice(), at),
    }
}

/// Whether the state is final.
pub fn is_final(m: &Fsm, state: u32) -> bool
    ensures { result ≡ (fsm_auto m.now).final state }
{
    match m.state(state) {
        None => false,
        Some(s) => s.fin,
    }
}

/// What the state puts on the steps that leave it. An `Err` is want of memory.
pub fn out(alloc: Global, m: &Fsm, state: u32) -> Result<Carry, Memory>
    ensures { IfOk result (λ o. o ≡ (fsm_auto m.now).out state) }
{
    match m.state(state) {
        None => Ok(Carry::none(alloc)),
        Some(s) => Ok(Carry {
            actions: s.out.actions.copy(alloc)?,
            table: s.out.priors.copy(alloc)?,
        }),
    }
}

// The marks of the kind.
fn marks_of(m: &Marks, kind: Kind) -> &[Stamp]
    ensures { result.now ≡ marks_of kind m.now }
{
    match kind {
        Kind::To => m.to.items(),
        Kind::From => m.from.items(),
        Kind::Eof => m.eof.items(),
        Kind::Error => m.error.items(),
    }
}

/// The actions of the kind that stay with the state.
pub fn marks(m: &Fsm, state: u32, kind: Kind) -> &[Stamp]
    ensures { result.now ≡ (fsm_auto m.now).marks state kind }
{
    match m.state(state) {
        None => &[],
        Some(s) => marks_of(&s.marks, kind),
    }
}

// The ranges of the edges.
fn ranges_of(alloc: Global, edges: &[Edge]) -> Result<Vec<KeyRange>, Memory>
    ensures { IfOk result (λ v. v.items ≡ ranges_of edges.now) }
{
    let mut ranges: Vec<KeyRange> = Vec::new(alloc);
    for e in edges {
        push(&mut ranges, e.range)?;
    }
    Ok(ranges)
}

/// The ranges of the state's edges. An `Err` is want of memory.
pub fn ranges(alloc: Global, m: &Fsm, state: u32) -> Result<Vec<KeyRange>, Memory>
    ensures { IfOk result (λ v. v.items ≡ ranges_at m.now state) }
{
    match m.state(state) {
        None => Ok(Vec::new(alloc)),
        Some(s) => Ok(ranges_of(alloc, s.edges.as_slice())?),
    }
}
