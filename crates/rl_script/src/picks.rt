// The picks that answer a call.
ghost use Rattle.std.specs.Prelude.{◌≡◌, ◌≤◌, ◌++◌, [], ◌∷◌, ℕ, length, nat_le, count_by, ◌==◌, Some, option_map, IfOk};
ghost use Rattle.rl_replay.specs.Script.{pick_in, each_of, picks_of};
ghost use Rattle.rl_script.specs.Parts.{parts_at};

use crate::numbers::{count_of, goal_of};
use crate::parts::cut_at;
use rl_types::List as Items;
use std::alloc::{AllocError, Global};

/// A statement's number, and the goal that is given.
type Pick = (u32, Option<i64>);

// A number, and a goal.
fn pick_at(number: &[u8], goal: &[u8]) -> Option<Pick>
    ensures { result ≡ pick_in (number.now ∷ goal.now ∷ []) }
{
    let number = count_of(number)?;
    let goal = goal_of(goal)?;
    Some((number, Some(goal)))
}

// A number, and what stands behind an equals sign.
fn pick_with_goal(number: &[u8], goal: &[u8]) -> Option<Pick>
    ensures { result ≡ pick_in (number.now ∷ parts_at 61 goal.now) }
{
    match cut_at(goal, b'=') {
        Some(_) => None,
        None => pick_at(number, goal),
    }
}

fn pick_without_goal(number: &[u8]) -> Option<Pick>
    ensures { result ≡ pick_in (number.now ∷ []) }
{
    let number = count_of(number)?;
    Some((number, None))
}

// A statement's number, or such a number, an equals sign and a goal.
fn pick_of(item: &[u8]) -> Option<Pick>
    ensures { result ≡ pick_in (parts_at 61 item.now) }
{
    match cut_at(item, b'=') {
        Some((number, goal)) => pick_with_goal(number, goal),
        None => pick_without_goal(item),
    }
}

// The picks between commas.
fn all_picks(alloc: Global, word: &[u8]) -> Result<Option<Items<Pick>>, AllocError>
    ensures { IfOk result (λ picks. picks ≡ each_of (λ item. pick_in (parts_at 61 item)) (parts_at 44 word.now)) }
{
    let mut picks = Items::new(alloc);
    let mut rest = word;
    'items: while let Some((item, behind)) = cut_at(rest, b',') {
        let Some(pick) = pick_of(item) else {
            return Ok(None);
        };
        picks.push(pick)?;
        rest = behind;
    }
    let Some(pick) = pick_of(rest) else {
        return Ok(None);
    };
    picks.push(pick)?;
    Ok(Some(picks))
}

fn commas_in(word: &[u8]) -> usize
    ensures { result ≡ count_by (λ b. b == 44) word.now }
{
    word.iter().filter(|b| **b == b',').count()
}

// Whether there are at most four items between commas.
fn are_at_most_four(word: &[u8]) -> bool
    ensures { result ≡ nat_le (length (parts_at 44 word.now)) 4 }
{
    commas_in(word) < 4
}

/// The picks of an answer: a dash for none, or one to four with commas between.
pub fn picks_of(alloc: Global, word: &[u8]) -> Result<Option<Items<Pick>>, AllocError>
    ensures { IfOk result (λ picks. picks ≡ picks_of word.now) }
{
    if word == b"-".as_slice() {
        return Ok(Some(Items::new(alloc)));
    }
    if !are_at_most_four(word) {
        return Ok(None);
    }
    all_picks(alloc, word)
}
