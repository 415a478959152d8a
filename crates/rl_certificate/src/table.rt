// The words that were found for pairs of states.
ghost use Rattle.std.specs.Prelude.{◌≡◌, ◌<◌, ℕ, Some, None, IfOk, MatchOption, length, map, slice_get, slice_set, unwrap_or};
ghost use Rattle.std.specs.Option.{option_copied, option_map};
ghost use Rattle.std.specs.List.{range_with_len};
ghost use Rattle.rl_certificate.specs.Tables.{words_of, rows_of, row_in, word_in, with_word, IsSquare};

use crate::lists::push;
use rl_minimal::MinFsm;
use rl_types::{Letter, Memory};
use std::alloc::Global;

// For each state a row with a place for each state: the first word after which the two show different things, where
// it has been found. Only places above the row's own state are used.
#[derive(Debug, Drop)]
pub(crate) struct Table {
    rows: Vec<Vec<Option<Vec<Letter>>>>,
}

// Places without words.
fn empty_row(alloc: Global, states: u32) -> Result<Vec<Option<Vec<Letter>>>, Memory>
    ensures { IfOk result (λ row.
        map (option_map (λ word. word.items)) row.items ≡ map (λ (i : ℕ). None) (range_with_len 0 states)) }
{
    let mut row = Vec::new(alloc);
    for _place in 0..states {
        push(&mut row, None)?;
    }
    Ok(row)
}

// Puts the word at a place of a row.
fn put_word(row: &mut Vec<Option<Vec<Letter>>>, place: u32, word: Vec<Letter>)
    requires { place < length row.old.items }
    ensures { row.new.items ≡ slice_set row.old.items place (Some word) }
{
    row[place as usize] = Some(word);
}

// The word at a place of a row, if it has been found.
fn word_at(row: &[Option<Vec<Letter>>], place: u32) -> Option<&[Letter]>
    ensures { option_copied result
        ≡ unwrap_or (slice_get (map (option_map (λ word. word.items)) row.now) place) None }
{
    match row.get(place as usize)? {
        Some(word) => Some(word.as_slice()),
        None => None,
    }
}

impl Table {
    // No word for any pair of so many states.
    pub(crate) fn new(alloc: Global, states: u32) -> Result<Table, Memory>
        ensures square { IfOk result (λ table. IsSquare states (rows_of table)) }
        ensures none { IfOk result (λ table. (i j : ℕ) → word_in (rows_of table) i j ≡ None) }
    {
        let mut rows = Vec::new(alloc);
        for _state in 0..states {
            let row = empty_row(alloc, states)?;
            push(&mut rows, row)?;
        }
        Ok(Table { rows })
    }

    // The word at a place, if it has been found.
    fn at(&self, low: u32, high: u32) -> Option<&[Letter]>
        ensures { option_copied result ≡ word_in (rows_of self.now) low high }
    {
        let row = self.rows.get(low as usize)?;
        word_at(row.as_slice(), high)
    }

    // The word that was found for the two states.
    pub(crate) fn word(&self, one: u32, other: u32) -> Option<&[Letter]>
        ensures { MatchOption result
            (words_of self.now one other ≡ None)
            (λ word. words_of self.now one other ≡ Some word.now) }
    {
        if one < other {
            self.at(one, other)
        } else {
            self.at(other, one)
        }
    }

    // Notes the word of a pair.
    pub(crate) fn set(&mut self, low: u32, high: u32, word: Vec<Letter>)
        requires low { low < length (rows_of self.old) }
        requires high { high < length (row_in (rows_of self.old) low) }
        ensures { rows_of self.new ≡ with_word (rows_of self.old) low high word.items }
    {
        put_word(&mut self.rows[low as usize], high, word);
    }
}
