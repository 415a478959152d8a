// The first words that lead to states.
ghost use Rattle.std.specs.Prelude.{◌≡◌, ◌<◌, ◌∷◌, [], ◌++◌, true, Some, IfOk, All, length, map, slice_get};
ghost use Rattle.std.specs.Option.{option_copied};
ghost use Rattle.rl_sets.specs.Sets.{In};
ghost use Rattle.rl_fsm.specs.Reads.{own_letter};
ghost use Rattle.rl_minimal.specs.Minimal.{reads_of};
ghost use Rattle.rl_certificate.specs.declared.certificate.Access.{Access};
ghost use Rattle.rl_certificate.specs.Certificates.{states_of};
ghost use Rattle.rl_certificate.specs.Reduced.{IsReduced};
ghost use Rattle.rl_certificate.specs.Firsts.{IsFirstAccess};
ghost use Rattle.rl_certificate.specs.Reaches.{is_met, access_in, IsPut, IsAdded, AreAdded, AreBegun, IsGoneOn, IsClosed};

use crate::certificate::Access;
use crate::lists::{copied, longer, push};
use crate::steps::own_letter;
use rl_minimal::{MinEdge, MinFsm};
use rl_types::{EntryId, Letter, Memory};
use std::alloc::Global;

// Whether there is a word for the state.
fn is_met(met: &[Access], state: u32) -> bool
    ensures { result ≡ is_met met.now state }
{
    met.iter().any(|a| a.state == state)
}

// Puts a word behind the others.
fn put_behind(
    met: &mut Vec<Access>,
    state: u32,
    entry: EntryId,
    word: Vec<Letter>,
) -> Result<(), Memory>
    ensures { IfOk result (λ _. IsPut met.old.items met.new.items state entry.0 word.items) }
{
    push(met, Access { state, entry, word })
}

// The empty word for the state of an entry, unless there is one.
fn add_start(alloc: Global, met: &mut Vec<Access>, entry: EntryId, state: u32) -> Result<(), Memory>
    ensures { IfOk result (λ _. IsAdded met.old.items met.new.items state entry.0 []) }
{
    if is_met(met, state) {
        return Ok(());
    }
    put_behind(met, state, entry, Vec::new(alloc))
}

// The empty words of the entries' states, each at its first entry.
fn starts(alloc: Global, min: &MinFsm) -> Result<Vec<Access>, Memory>
    ensures { IfOk result (λ met. AreBegun [] met.items 0 min.now.entries) }
{
    let _ = min.states();
    let entries = min.entries();
    let mut met = Vec::new(alloc);
    for (i, start) in entries.iter().enumerate() {
        add_start(alloc, &mut met, EntryId(i as u32 + 1), *start)?;
    }
    Ok(met)
}

// The word along an edge of the state to which this word leads, unless the edge's target has one.
fn add_target(
    alloc: Global,
    edge: &MinEdge,
    entry: EntryId,
    word: &[Letter],
    met: &mut Vec<Access>,
) -> Result<(), Memory>
    ensures { IfOk result (λ _. IsAdded met.old.items met.new.items edge.now.target entry.0
        (word.now ++ own_letter (reads_of edge.now) ∷ [])) }
{
    if is_met(met, edge.target) {
        return Ok(());
    }
    let word = longer(alloc, word, own_letter(edge))?;
    put_behind(met, edge.target, entry, word)
}

// Puts behind the words those of the states to which the edges of this word's state lead.
fn add_targets(
    alloc: Global,
    edges: &[MinEdge],
    entry: EntryId,
    word: &[Letter],
    met: &mut Vec<Access>,
) -> Result<(), Memory>
    ensures { IfOk result (λ _. AreAdded met.old.items met.new.items entry.0 word.now edges.now) }
{
    for edge in edges {
        add_target(alloc, edge, entry, word, met)?;
    }
    Ok(())
}

// Goes on from the word at this place.
fn go_on(alloc: Global, min: &MinFsm, met: &mut Vec<Access>, place: usize) -> Result<(), Memory>
    requires there { place < length met.old.items }
    requires known { (a : Access) → slice_get met.old.items place ≡ Some a → a.state < length min.now.states }
    ensures { IfOk result (λ _. IsGoneOn min.now met.old.items met.new.items place) }
{
    let (state, entry) = (met[place].state, met[place].entry);
    let word = copied(alloc, &met[place].word)?;
    add_targets(alloc, min.state(state).edges.as_slice(), entry, &word, met)
}

// The first words that lead to states, in their order.
fn by_order(alloc: Global, min: &MinFsm) -> Result<Vec<Access>, Memory>
    ensures { IfOk result (λ met. IsClosed min.now met.items) }
{
    let _ = min.states();
    let mut met = starts(alloc, min)?;
    let mut place = 0;
    'words: while place < met.len() {
        go_on(alloc, min, &mut met, place)?;
        place += 1;
    }
    Ok(met)
}

// The word of a state, if it has one.
fn find_access(met: &[Access], state: u32) -> Option<&Access>
    ensures { option_copied result ≡ access_in met.now state }
{
    met.iter().find(|a| a.state == state)
}

// The word of a state that has one.
fn access_of(met: &[Access], state: u32) -> &Access
    requires { is_met met.now state ≡ true }
    ensures there { In result.now met.now }
    ensures leads { result.now.state ≡ state }
{
    match find_access(met, state) {
        Some(access) => access,
        None => unreachable!(),
    }
}

// The first word that leads to the state.
fn first_access(alloc: Global, min: &MinFsm, met: &[Access], state: u32) -> Result<Access, Memory>
    requires closed { IsClosed min.now met.now }
    requires met { is_met met.now state ≡ true }
    ensures leads { IfOk result (λ access. access.state ≡ state) }
    ensures first { IfOk result (λ access. IsFirstAccess min.now access) }
{
    let _ = min;
    let access = access_of(met, state);
    let word = copied(alloc, &access.word)?;
    Ok(Access {
        state,
        entry: access.entry,
        word,
    })
}

// The first word that leads to each state but Error, ascending.
pub(crate) fn accesses(alloc: Global, min: &MinFsm) -> Result<Vec<Access>, Memory>
    requires { IsReduced min.now }
    ensures states { IfOk result (λ access.
        map (λ (a : Access). a.state) access.items ≡ states_of (length min.now.states)) }
    ensures first { IfOk result (λ access. All (IsFirstAccess min.now) access.items) }
{
    let met = by_order(alloc, min)?;
    let mut access = Vec::new(alloc);
    for state in 1..min.states() {
        let first = first_access(alloc, min, &met, state)?;
        push(&mut access, first)?;
    }
    Ok(access)
}
