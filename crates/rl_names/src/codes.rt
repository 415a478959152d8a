// The codes of actions: where their words stand, and what is asked of them.
ghost use Rattle.std.specs.Prelude.{◌≡◌, ◌+◌, None, Some, take, MatchResult};
ghost use Rattle.std.specs.List.{list_any};
ghost use Rattle.rl_grammar.specs.declared.read_fault.ReadFault.TheVariants as reason;
ghost use Rattle.rl_lexical.specs.Places as places;
ghost use Rattle.rl_code.specs.Sayings.{sayings};
ghost use Rattle.rl_names.specs.Answers.{Told, Tells};
ghost use Rattle.rl_names.specs.Codes as codes;

use crate::memory::fault_at;
use rl_code::{Said, Saying};
use rl_grammar::ReadFault;
use rl_grammar::syntax::Word;
use rl_statements::{fifth_outer, first_misplaced, read_code};
use rl_types::{FaultKind, Limit, LimitKind, Memory, Place};
use std::alloc::Global;

/// All that a code says.
pub fn said_in(alloc: Global, code: &[u8]) -> Result<Vec<Said>, ReadFault>
    ensures { MatchResult result (λ said. said.items ≡ sayings code.now) (λ e. e ≡ reason.Memory) }
{
    match read_code(alloc, code) {
        Ok(said) => Ok(said),
        Err(Memory) => Err(ReadFault::Memory),
    }
}

// ---- places

/// A line or column more: a place that no number of 32 bits has wants memory.
fn one_more(number: u32) -> Result<u32, ReadFault>
    ensures { MatchResult result (λ n. n ≡ number + 1) (λ e. e ≡ reason.Memory) }
{
    match number.checked_add(1) {
        Some(n) => Ok(n),
        None => Err(ReadFault::Memory),
    }
}

/// The place behind a byte.
fn place_behind(place: Place, byte: u8) -> Result<Place, ReadFault>
    ensures { MatchResult result (λ p. p ≡ places.place_behind place byte) (λ e. e ≡ reason.Memory) }
{
    if byte == b'\n' {
        let line = one_more(place.line)?;
        Ok(Place {
            file: place.file,
            line,
            col: 1,
        })
    } else {
        let col = one_more(place.col)?;
        Ok(Place {
            file: place.file,
            line: place.line,
            col,
        })
    }
}

/// The place behind a text.
fn place_behind_text(place: Place, text: &[u8]) -> Result<Place, ReadFault>
    ensures { MatchResult result (λ p. p ≡ codes.place_behind_text place text.now) (λ e. e ≡ reason.Memory) }
{
    let mut at = place;
    for byte in text {
        at = place_behind(at, *byte)?;
    }
    Ok(at)
}

/// So many bytes of a text.
fn front(text: &[u8], count: usize) -> &[u8]
    ensures { result.now ≡ take count text.now }
{
    match text.split_at_checked(count) {
        Some((front, _)) => front,
        None => text,
    }
}

/// Where a word of code stands that so many bytes of the code are before.
pub fn place_in(code: &Word, from: usize) -> Result<Place, ReadFault>
    ensures { MatchResult result (λ p. p ≡ codes.place_in code.now from) (λ e. e ≡ reason.Memory) }
{
    place_behind_text(code.place, front(code.text.as_slice(), from))
}

// ---- statements

fn is_control(said: &Said) -> bool
    ensures { result ≡ codes.is_control said.now }
{
    match said.saying {
        Saying::Control(_) => true,
        Saying::Entry(_) | Saying::Position | Saying::Character | Saying::Misplaced => false,
    }
}

/// Whether a code that says this has a control statement.
pub fn has_controls(said: &[Said]) -> bool
    ensures { result ≡ list_any codes.is_control said.now }
{
    for one in said {
        if is_control(one) {
            return true;
        }
    }
    false
}

/// Whether a code has a control statement.
pub fn has_statements(alloc: Global, code: &[u8]) -> Result<bool, ReadFault>
    ensures { MatchResult result (λ b. b ≡ codes.has_statements code.now) (λ e. e ≡ reason.Memory) }
{
    let said = said_in(alloc, code)?;
    Ok(has_controls(said.as_slice()))
}

// ---- words that stand where they may not

fn misplaced(code: &Word, from: usize) -> Result<(), ReadFault>
    ensures { Tells (Some (codes.misplaced code.now from)) result }
{
    let place = place_in(code, from)?;
    Err(fault_at(FaultKind::F13, place))
}

fn one_outer_too_many(code: &Word, from: usize) -> Result<(), ReadFault>
    ensures { Tells (Some (codes.one_outer_too_many code.now from)) result }
{
    let place = place_in(code, from)?;
    Err(ReadFault::Limit(Limit {
        kind: LimitKind::L10,
        place,
    }))
}

/// The first of a misplaced word and a fifth statement.
fn first_of_both(code: &Word, word: Option<usize>, fifth: Option<usize>) -> Result<(), ReadFault>
    ensures { Tells (codes.first_of_both code.now word fifth) result }
{
    match (word, fifth) {
        (None, None) => Ok(()),
        (None, Some(from)) => one_outer_too_many(code, from),
        (Some(from), None) => misplaced(code, from),
        (Some(from), Some(fifth)) => {
            if fifth < from {
                one_outer_too_many(code, fifth)
            } else {
                misplaced(code, from)
            }
        }
    }
}

fn words(code: &Word, said: &[Said]) -> Result<(), ReadFault>
    requires { said.now ≡ sayings code.now.text }
    ensures { Tells (codes.code_fault code.now) result }
{
    first_of_both(code, first_misplaced(said), fifth_outer(said))
}

/// Whether a code has a control statement; the error is the first word that stands where it may not, or the fifth statement at the
/// outer level.
pub fn code(alloc: Global, code: &Word) -> Result<bool, ReadFault>
    ensures { MatchResult result (λ b. (codes.code_fault code.now ≡ None) × (b ≡ codes.has_statements code.now.text)) (Told (codes.code_fault code.now)) }
{
    let said = said_in(alloc, code.text.as_slice())?;
    words(code, said.as_slice())?;
    Ok(has_controls(said.as_slice()))
}
