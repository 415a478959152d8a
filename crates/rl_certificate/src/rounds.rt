// The first words that tell pairs of states apart, by rounds: those of one letter more come from those of the round
// before.
ghost use Rattle.std.specs.Prelude.{◌≡◌, ◌<◌, ◌+◌, ◌∷◌, [], ℕ, List, None, IfOk, MatchOption, length};
ghost use Rattle.std.specs.Option.{option_copied};
ghost use Rattle.rl_types.specs.declared.numbers.Letter.{Letter};
ghost use Rattle.rl_sets.specs.Sets.{In};
ghost use Rattle.rl_certificate.specs.declared.order.Pair.{Pair};
ghost use Rattle.rl_certificate.specs.Founds.{AreFound};
ghost use Rattle.rl_certificate.specs.Steps.{AreSteps};
ghost use Rattle.rl_certificate.specs.Rounds.{IsRest, IsNoStep, IsFirstStep, IsLed};
ghost use Rattle.rl_certificate.specs.Tables.{words_of, rows_of, word_in, IsSquare, IsPair, AreOpen, AreKnown, IsRound, IsTurned, IsTried, IsBegun};

use crate::lists::{led_by, push};
use crate::order::Pair;
use crate::steps::Steps;
use crate::table::Table;
use crate::views::show_same;
use rl_minimal::MinFsm;
use rl_types::{Letter, Memory};
use std::alloc::Global;

// A letter that leads two states to two that a word of the round before tells apart.
#[derive(Clone, Copy, Debug)]
struct Step<'a> {
    letter: Letter,
    rest: &'a [Letter],
}

// The word of so many letters that tells apart the states to which two steps lead.
fn rest_of(table: &Table, one: Option<u32>, other: Option<u32>, count: usize) -> Option<&[Letter]>
    ensures { MatchOption result
        ((q p : ℕ) (v : List Letter) → IsRest (words_of table.now) count one other q p v → ⊥)
        (λ rest. (q : ℕ) × (p : ℕ) × IsRest (words_of table.now) count one other q p rest.now) }
{
    let (Some(one), Some(other)) = (one, other) else {
        return None;
    };
    let word = table.word(one, other)?;
    if word.len() == count {
        Some(word)
    } else {
        None
    }
}

// The first of the steps of a pair, for words of so many letters.
fn first_step<'a>(
    min: &MinFsm,
    steps: &Steps,
    table: &'a Table,
    pair: Pair,
    count: usize,
) -> Option<Step<'a>>
    requires steps { AreSteps min.now steps.now }
    requires pair { IsPair min.now pair }
    ensures { MatchOption result
        (IsNoStep min.now steps.now.letters.items count (words_of table.now) pair.low pair.high)
        (λ step. IsFirstStep min.now steps.now.letters.items count (words_of table.now) pair.low pair.high
        step.letter step.rest.now) }
{
    let letters = steps.letters();
    let (ones, others) = (steps.of(min, pair.low), steps.of(min, pair.high));
    for (i, letter) in letters.iter().enumerate() {
        if let Some(rest) = rest_of(table, ones[i], others[i], count) {
            return Some(Step {
                letter: *letter,
                rest,
            });
        }
    }
    None
}

// The first word of one letter more than the count that tells the pair apart, if there is one.
fn word_of(
    alloc: Global,
    min: &MinFsm,
    steps: &Steps,
    table: &Table,
    pair: Pair,
    count: usize,
) -> Result<Option<Vec<Letter>>, Memory>
    requires steps { AreSteps min.now steps.now }
    requires pair { IsPair min.now pair }
    ensures { IfOk result (λ found. MatchOption found
        (IsNoStep min.now steps.now.letters.items count (words_of table.now) pair.low pair.high)
        (λ word. IsLed min.now steps.now.letters.items count (words_of table.now) pair.low pair.high word.items)) }
{
    match first_step(min, steps, table, pair, count) {
        Some(step) => Ok(Some(led_by(alloc, step.letter, step.rest)?)),
        None => Ok(None),
    }
}

// Notes the word of one letter more than the count for the pair, if there is one; else puts it behind the others.
fn next_pair(
    alloc: Global,
    min: &MinFsm,
    steps: &Steps,
    table: &mut Table,
    pair: Pair,
    count: usize,
    still: &mut Vec<Pair>,
) -> Result<(), Memory>
    requires steps { AreSteps min.now steps.now }
    requires pair { IsPair min.now pair }
    requires square { IsSquare (length min.now.states) (rows_of table.old) }
    ensures { IfOk result (λ _. IsTurned min.now steps.now.letters.items count (rows_of table.old) (rows_of table.new) pair
        still.old.items still.new.items) }
{
    let Some(word) = word_of(alloc, min, steps, table, pair, count)? else {
        return push(still, pair);
    };
    table.set(pair.low, pair.high, word);
    Ok(())
}

// Notes the words of one letter more than the count for the pairs that have none; the pairs that still have none.
fn round(
    alloc: Global,
    min: &MinFsm,
    homes: bool,
    steps: &Steps,
    table: &mut Table,
    unknown: &[Pair],
    count: usize,
) -> Result<Vec<Pair>, Memory>
    requires steps { AreSteps min.now steps.now }
    requires square { IsSquare (length min.now.states) (rows_of table.old) }
    requires known { AreKnown min.now homes count (rows_of table.old) }
    requires unknown { AreOpen min.now (rows_of table.old) unknown.now }
    ensures { IfOk result (λ still.
        IsRound min.now homes count (rows_of table.old) (rows_of table.new) unknown.now still.items) }
{
    let _ = (min.states(), homes);
    let mut still = Vec::new(alloc);
    for pair in unknown {
        next_pair(alloc, min, steps, table, *pair, count, &mut still)?;
    }
    Ok(still)
}

// Notes the empty word for the pair, if it shows different things itself; else puts it behind the others.
fn first_pair(
    alloc: Global,
    min: &MinFsm,
    homes: bool,
    table: &mut Table,
    pair: Pair,
    still: &mut Vec<Pair>,
) -> Result<(), Memory>
    requires pair { IsPair min.now pair }
    requires square { IsSquare (length min.now.states) (rows_of table.old) }
    ensures { IfOk result (λ _.
        IsTried min.now homes (rows_of table.old) (rows_of table.new) pair still.old.items still.new.items) }
{
    if show_same(min, homes, pair.low, pair.high) {
        return push(still, pair);
    }
    table.set(pair.low, pair.high, Vec::new(alloc));
    Ok(())
}

// The same for the pairs of one low state.
fn first_row(
    alloc: Global,
    min: &MinFsm,
    homes: bool,
    table: &mut Table,
    low: u32,
    still: &mut Vec<Pair>,
) -> Result<(), Memory>
    requires low { 0 < low }
    requires there { low < length min.now.states }
    requires begun { IsBegun min.now homes (rows_of table.old) still.old.items low (low + 1) }
    ensures { IfOk result (λ _.
        IsBegun min.now homes (rows_of table.new) still.new.items low (length min.now.states)) }
{
    let states = min.states();
    for high in low + 1..states {
        first_pair(alloc, min, homes, table, Pair { low, high }, still)?;
    }
    Ok(())
}

// Notes the empty word for the pairs that show different things themselves; the pairs that do not.
fn first_round(
    alloc: Global,
    min: &MinFsm,
    homes: bool,
    table: &mut Table,
) -> Result<Vec<Pair>, Memory>
    requires square { IsSquare (length min.now.states) (rows_of table.old) }
    requires none { (i j : ℕ) → word_in (rows_of table.old) i j ≡ None }
    ensures square { IfOk result (λ still. IsSquare (length min.now.states) (rows_of table.new)) }
    ensures known { IfOk result (λ still. AreKnown min.now homes 0 (rows_of table.new)) }
    ensures unknown { IfOk result (λ still. AreOpen min.now (rows_of table.new) still.items) }
{
    let mut still = Vec::new(alloc);
    for low in 1..min.states() {
        first_row(alloc, min, homes, table, low, &mut still)?;
    }
    Ok(still)
}

// The first words of all pairs that any word tells apart. A round that finds nothing is the last one.
pub(crate) fn all_words(
    alloc: Global,
    min: &MinFsm,
    steps: &Steps,
    homes: bool,
) -> Result<Table, Memory>
    requires steps { AreSteps min.now steps.now }
    ensures { IfOk result (λ table. AreFound min.now homes (words_of table)) }
{
    let mut table = Table::new(alloc, min.states())?;
    let mut unknown = first_round(alloc, min, homes, &mut table)?;
    let mut count = 0;
    'rounds: loop {
        let still = round(alloc, min, homes, steps, &mut table, &unknown, count)?;
        if still.len() == unknown.len() {
            return Ok(table);
        }
        unknown = still;
        count += 1;
    }
}
