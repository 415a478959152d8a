// Levels of an expression: one with nothing beside its operand is its operand.
ghost use Rattle.std.specs.Prelude.{◌≡◌, MatchResult};
ghost use Rattle.rl_grammar.specs.declared.read_fault.ReadFault.TheVariants as reason;
ghost use Rattle.rl_names.specs.Expressions as expressions;

use rl_draft::{Expression, Link, NegationSign, Put, Repetition};
use rl_grammar::ReadFault;
use rl_types::{Boxed, List, Place};
use std::alloc::Global;

fn boxed(alloc: Global, operand: Expression) -> Result<Boxed<Expression>, ReadFault>
    ensures { MatchResult result (λ b. b ≡ operand) (λ e. e ≡ reason.Memory) }
{
    match Boxed::new(alloc, operand) {
        Ok(operand) => Ok(operand),
        Err(_) => Err(ReadFault::Memory),
    }
}

/// An operand behind negations.
pub fn negated(
    alloc: Global,
    negations: List<NegationSign>,
    operand: Expression,
) -> Result<Expression, ReadFault>
    ensures { MatchResult result (λ e. e ≡ expressions.with_negations negations operand) (λ e. e ≡ reason.Memory) }
{
    match negations.as_slice() {
        [] => Ok(operand),
        [_, ..] => {
            let operand = boxed(alloc, operand)?;
            Ok(Expression::Negated(negations, operand))
        }
    }
}

/// An operand with repetitions.
pub fn repeated(
    alloc: Global,
    repetitions: List<Repetition>,
    place: Place,
    operand: Expression,
) -> Result<Expression, ReadFault>
    ensures { MatchResult result (λ e. e ≡ expressions.with_repetitions repetitions place operand) (λ e. e ≡ reason.Memory) }
{
    match repetitions.as_slice() {
        [] => Ok(operand),
        [_, ..] => {
            let operand = boxed(alloc, operand)?;
            Ok(Expression::Repeated(operand, repetitions, place))
        }
    }
}

/// An operand with what is embedded in it.
pub fn embedded(
    alloc: Global,
    puts: List<Put>,
    place: Place,
    operand: Expression,
) -> Result<Expression, ReadFault>
    ensures { MatchResult result (λ e. e ≡ expressions.with_puts puts place operand) (λ e. e ≡ reason.Memory) }
{
    match puts.as_slice() {
        [] => Ok(operand),
        [_, ..] => {
            let operand = boxed(alloc, operand)?;
            Ok(Expression::Embedded(operand, puts, place))
        }
    }
}

/// An operand with those that are joined to it.
pub fn chain(
    alloc: Global,
    links: List<Link>,
    place: Place,
    first: Expression,
) -> Result<Expression, ReadFault>
    ensures { MatchResult result (λ e. e ≡ expressions.with_links links place first) (λ e. e ≡ reason.Memory) }
{
    match links.as_slice() {
        [] => Ok(first),
        [_, ..] => {
            let first = boxed(alloc, first)?;
            Ok(Expression::Chain(first, links, place))
        }
    }
}
