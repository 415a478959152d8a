// Operands that no other expression stands in.
ghost use Rattle.rl_grammar.specs.declared.syntax.Scanner.{out-Scanner};
ghost use Rattle.rl_names.specs.Answers.{Gives};
ghost use Rattle.rl_names.specs.Expressions as expressions;
ghost use Rattle.rl_names.specs.Leaves as leaves;
ghost use Rattle.rl_names.specs.Places as places;

use crate::leaves::{literal_leaf, number_leaf, range_leaf, regular_leaf, set_leaf};
use crate::memory::fault_at;
use crate::places::{key_place, number_place};
use rl_draft::Expression;
use rl_grammar::ReadFault;
use rl_grammar::syntax::{Key, Number, Scanner, Word};
use rl_types::{Alphabet, FaultKind};
use std::alloc::Global;

pub fn literal(alloc: Global, alphabet: Alphabet, word: &Word) -> Result<Expression, ReadFault>
    ensures { Gives (expressions.leaf_at word.now.place (leaves.literal_read alphabet word.now)) result }
{
    let leaf = literal_leaf(alloc, alphabet, word)?;
    Ok(Expression::Leaf(leaf, word.place))
}

pub fn number(alloc: Global, alphabet: Alphabet, number: &Number) -> Result<Expression, ReadFault>
    ensures { Gives (expressions.leaf_at (places.number_place number.now) (leaves.number_leaf alphabet number.now)) result }
{
    let leaf = number_leaf(alloc, alphabet, number)?;
    Ok(Expression::Leaf(leaf, number_place(number)))
}

pub fn range(
    alloc: Global,
    alphabet: Alphabet,
    low: &Key,
    high: &Key,
) -> Result<Expression, ReadFault>
    ensures { Gives (expressions.leaf_at (places.key_place low.now) (leaves.range_between alphabet low.now high.now)) result }
{
    let leaf = range_leaf(alloc, alphabet, low, high)?;
    Ok(Expression::Leaf(leaf, key_place(low)))
}

pub fn set(alloc: Global, alphabet: Alphabet, word: &Word) -> Result<Expression, ReadFault>
    ensures { Gives (expressions.leaf_at word.now.place (leaves.set_read alphabet word.now)) result }
{
    let leaf = set_leaf(alloc, alphabet, word)?;
    Ok(Expression::Leaf(leaf, word.place))
}

pub fn regular(alloc: Global, alphabet: Alphabet, word: &Word) -> Result<Expression, ReadFault>
    ensures { Gives (expressions.leaf_at word.now.place (leaves.regular_read alphabet word.now)) result }
{
    let leaf = regular_leaf(alloc, alphabet, word)?;
    Ok(Expression::Leaf(leaf, word.place))
}

/// A scanner that is not the whole of an instantiation is refused by the grammar, at the same place.
pub fn misplaced(scanner: &Scanner) -> Result<Expression, ReadFault>
    ensures { Gives (expressions.misplaced (out-Scanner scanner.now).opening) result }
{
    Err(fault_at(FaultKind::F11, scanner.opening))
}
