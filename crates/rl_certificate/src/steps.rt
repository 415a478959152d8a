// The steps of all states on the letters that tell them apart.
ghost use Rattle.std.specs.Prelude.{◌≡◌, ◌<◌, ℕ, [], IfOk, length, map};
ghost use Rattle.std.specs.List.{range_with_len};
ghost use Rattle.rl_fsm.specs.Reads.{own_letter};
ghost use Rattle.rl_minimal.specs.Minimal.{reads_of};
ghost use Rattle.rl_certificate.specs.Rounds.{own_letters};
ghost use Rattle.rl_certificate.specs.Steps.{AreSteps, row_of, with_letters, with_states};

use crate::lists::{push, put};
use crate::walk::target_on;
use rl_minimal::{MinEdge, MinFsm};
use rl_types::{Letter, Memory};
use std::alloc::Global;

// The first letter that each edge takes, ascending; and for each state where it steps on each of them. Whatever step
// two states that show the same take together, they take on one of these letters too, and on none before it.
#[derive(Debug, Drop)]
pub(crate) struct Steps {
    letters: Vec<Letter>,
    targets: Vec<Vec<Option<u32>>>,
}

// The first letter that the edge takes.
pub(crate) fn own_letter(e: &MinEdge) -> Letter
    ensures { result ≡ own_letter (reads_of e.now) }
{
    Letter {
        key: e.range.lo(),
        truths: e.truths.0,
    }
}

// Puts the first letters of these edges among the others.
fn put_letters(letters: &mut Vec<Letter>, edges: &[MinEdge]) -> Result<(), Memory>
    ensures { IfOk result (λ _. letters.new.items ≡ with_letters (own_letters edges.now) letters.old.items) }
{
    for e in edges {
        put(letters, own_letter(e))?;
    }
    Ok(())
}

// The first letters of all edges, ascending.
fn all_letters(alloc: Global, min: &MinFsm) -> Result<Vec<Letter>, Memory>
    ensures { IfOk result (λ letters. letters.items ≡ with_states min.now.states []) }
{
    let states = min.all_states();
    let mut letters = Vec::new(alloc);
    for state in states {
        put_letters(&mut letters, state.edges.as_slice())?;
    }
    Ok(letters)
}

// Where the state steps on each letter.
fn targets_of(
    alloc: Global,
    min: &MinFsm,
    letters: &[Letter],
    state: u32,
) -> Result<Vec<Option<u32>>, Memory>
    requires { state < length min.now.states }
    ensures { IfOk result (λ row. row.items ≡ row_of min.now letters.now state) }
{
    let mut targets = Vec::new(alloc);
    for letter in letters {
        push(&mut targets, target_on(min, state, *letter))?;
    }
    Ok(targets)
}

// Where each state steps on each letter.
fn all_targets(
    alloc: Global,
    min: &MinFsm,
    letters: &[Letter],
) -> Result<Vec<Vec<Option<u32>>>, Memory>
    ensures { IfOk result (λ rows. map (λ row. row.items) rows.items
        ≡ map (λ (i : ℕ). row_of min.now letters.now i) (range_with_len 0 (length min.now.states))) }
{
    let mut targets = Vec::new(alloc);
    for state in 0..min.states() {
        let row = targets_of(alloc, min, letters, state)?;
        push(&mut targets, row)?;
    }
    Ok(targets)
}

impl Steps {
    pub(crate) fn new(alloc: Global, min: &MinFsm) -> Result<Steps, Memory>
        ensures { IfOk result (λ steps. AreSteps min.now steps) }
    {
        let letters = all_letters(alloc, min)?;
        let targets = all_targets(alloc, min, &letters)?;
        Ok(Steps { letters, targets })
    }

    // The letters, ascending.
    pub(crate) fn letters(&self) -> &[Letter]
        ensures { result.now ≡ self.now.letters.items }
    {
        self.letters.as_slice()
    }

    // Where the state of this machine steps on each letter.
    pub(crate) fn of(&self, min: &MinFsm, state: u32) -> &[Option<u32>]
        requires steps { AreSteps min.now self.now }
        requires there { state < length min.now.states }
        ensures { result.now ≡ row_of min.now self.now.letters.items state }
    {
        let _ = min;
        let rows = self.targets.as_slice();
        rows[state as usize].as_slice()
    }
}
