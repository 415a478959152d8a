// Names of expressions where they are used.
ghost use Rattle.std.specs.Prelude.{◌≡◌, slice_get};
ghost use Rattle.rl_draft.specs.declared.expression.Expression.{out-Expression};
ghost use Rattle.rl_names.specs.Answers.{Gives};
ghost use Rattle.rl_names.specs.Expressions as expressions;
ghost use Rattle.rl_names.specs.Scopes.{kept};

use crate::memory::fault_at;
use crate::scope::Scope;
use crate::texts;
use rl_draft::{Definition, Expression, Value};
use rl_grammar::ReadFault;
use rl_grammar::syntax::Word;
use rl_leaves::{built_in_leaf, built_in_named};
use rl_types::{FaultKind, Place};
use std::alloc::Global;

/// A definition that is a name alone is taken as the definition that it names.
fn followed(index: u32, expression: &Expression) -> u32
    ensures { result ≡ expressions.followed index (out-Expression expression.now) }
{
    match expression {
        Expression::Name(other) => *other,
        Expression::Leaf(_, _)
        | Expression::Chain(_, _, _)
        | Expression::Repeated(_, _, _)
        | Expression::Negated(_, _)
        | Expression::Embedded(_, _, _) => index,
    }
}

fn value_used(place: Place, index: u32, value: &Value) -> Result<Expression, ReadFault>
    ensures { Gives (expressions.value_used place index value.now) result }
{
    match value {
        Value::Expression(expression) => Ok(Expression::Name(followed(index, expression))),
        Value::Scanner(_, _) => Err(fault_at(FaultKind::F5, place)),
    }
}

fn definition_used(
    place: Place,
    index: usize,
    definitions: &[Definition],
) -> Result<Expression, ReadFault>
    ensures { Gives (expressions.definition_used place index (slice_get definitions.now index)) result }
{
    let Some(definition) = definitions.get(index) else {
        return Err(fault_at(FaultKind::F5, place));
    };
    match u32::try_from(index) {
        Ok(number) => value_used(place, number, &definition.value),
        Err(_) => Err(ReadFault::Memory),
    }
}

fn defined(scope: &Scope<'_>, word: &Word) -> Result<Expression, ReadFault>
    ensures { Gives (expressions.defined_read (kept scope.now) word.now) result }
{
    let index = texts::number_of(scope.names, word.place, word.text.as_slice())?;
    definition_used(word.place, index, scope.earlier)
}

/// The expression that a name stands for.
pub fn name(alloc: Global, scope: &Scope<'_>, word: &Word) -> Result<Expression, ReadFault>
    ensures { Gives (expressions.name_read (kept scope.now) word.now) result }
{
    match built_in_named(word.text.as_slice()) {
        Some(one) => match built_in_leaf(alloc, scope.alphabet, one) {
            Ok(leaf) => Ok(Expression::Leaf(leaf, word.place)),
            Err(_) => Err(ReadFault::Memory),
        },
        None => defined(scope, word),
    }
}
