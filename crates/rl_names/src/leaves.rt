// What literals, numbers, ranges, sets and regular expressions say.
ghost use Rattle.std.specs.Prelude.{◌≡◌};
ghost use Rattle.rl_names.specs.Answers.{Gives};
ghost use Rattle.rl_names.specs.Leaves as leaves;

use crate::memory::fault_at;
use crate::numbers::number_of;
use crate::places::{key_place, number_place};
use rl_grammar::ReadFault;
use rl_grammar::syntax::{Key as End, Number, Operand, Word};
use rl_leaves::{KeyFault, Leaf, LeafFault, character_key};
use rl_types::{Alphabet, Key, Place};
use std::alloc::Global;

/// Why there is no leaf, told at a place.
fn told_at(place: Place, fault: LeafFault) -> ReadFault
    ensures { result ≡ leaves.fault_told place fault }
{
    match fault {
        LeafFault::Keys(wrong) => fault_at(wrong.kind(), place),
        LeafFault::Memory => ReadFault::Memory,
    }
}

/// Why there is no leaf, told at an end of a range.
fn told_between(low: Place, high: Place, fault: LeafFault) -> ReadFault
    ensures { result ≡ leaves.range_fault_told low high fault }
{
    match fault {
        LeafFault::Keys(KeyFault::UpperOutside) => { fault_at(KeyFault::UpperOutside.kind(), high) }
        _ => told_at(low, fault),
    }
}

pub fn literal_leaf(alloc: Global, alphabet: Alphabet, word: &Word) -> Result<Leaf, ReadFault>
    ensures { Gives (leaves.literal_read alphabet word.now) result }
{
    match rl_leaves::literal_leaf(alloc, alphabet, word.text.as_slice()) {
        Ok(leaf) => Ok(leaf),
        Err(_) => Err(ReadFault::Memory),
    }
}

pub fn number_leaf(alloc: Global, alphabet: Alphabet, number: &Number) -> Result<Leaf, ReadFault>
    ensures { Gives (leaves.number_leaf alphabet number.now) result }
{
    let value = number_of(number)?;
    match rl_leaves::key_leaf(alloc, alphabet, Key(value)) {
        Ok(leaf) => Ok(leaf),
        Err(fault) => Err(told_at(number_place(number), fault)),
    }
}

fn key_of(alloc: Global, alphabet: Alphabet, end: &End) -> Result<Key, ReadFault>
    ensures { Gives (leaves.key_read alphabet end.now) result }
{
    match end {
        End::Number(number) => {
            let value = number_of(number)?;
            Ok(Key(value))
        }
        End::Character(word) => match character_key(alloc, alphabet, word.text.as_slice()) {
            Ok(value) => Ok(value),
            Err(_) => Err(ReadFault::Memory),
        },
    }
}

pub fn range_leaf(
    alloc: Global,
    alphabet: Alphabet,
    low: &End,
    high: &End,
) -> Result<Leaf, ReadFault>
    ensures { Gives (leaves.range_between alphabet low.now high.now) result }
{
    let lo = key_of(alloc, alphabet, low)?;
    let hi = key_of(alloc, alphabet, high)?;
    match rl_leaves::range_leaf(alloc, alphabet, lo, hi) {
        Ok(leaf) => Ok(leaf),
        Err(fault) => Err(told_between(key_place(low), key_place(high), fault)),
    }
}

pub fn set_leaf(alloc: Global, alphabet: Alphabet, word: &Word) -> Result<Leaf, ReadFault>
    ensures { Gives (leaves.set_read alphabet word.now) result }
{
    match rl_leaves::set_leaf(alloc, alphabet, word.text.as_slice()) {
        Ok(leaf) => Ok(leaf),
        Err(fault) => Err(told_at(word.place, fault)),
    }
}

pub fn regular_leaf(alloc: Global, alphabet: Alphabet, word: &Word) -> Result<Leaf, ReadFault>
    ensures { Gives (leaves.regular_read alphabet word.now) result }
{
    match rl_leaves::regular_leaf(alloc, alphabet, word.text.as_slice()) {
        Ok(leaf) => Ok(leaf),
        Err(fault) => Err(told_at(word.place, fault)),
    }
}

/// The leaf of a literal, a number, a range, a set or a regular expression.
pub fn leaf_of(alloc: Global, alphabet: Alphabet, operand: &Operand) -> Result<Leaf, ReadFault>
    ensures { Gives (leaves.leaf_read alphabet operand.now) result }
{
    match operand {
        Operand::Literal(word) => literal_leaf(alloc, alphabet, word),
        Operand::Number(number) => number_leaf(alloc, alphabet, number),
        Operand::Range(low, _, high) => range_leaf(alloc, alphabet, low, high),
        Operand::Set(word) => set_leaf(alloc, alphabet, word),
        Operand::RegularExpression(word) => regular_leaf(alloc, alphabet, word),
        Operand::Name(_) | Operand::Group(_, _, _) | Operand::Scanner(_) => Ok(Leaf::Null),
    }
}
