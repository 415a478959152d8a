// What expressions are read as: parentheses and levels of one member go, and names become numbers.
ghost use Rattle.rl_names.specs.Answers.{Gives, each};
ghost use Rattle.rl_names.specs.Expressions as expressions;
ghost use Rattle.rl_names.specs.Levels.{concatenation_part_read, union_part_read};
ghost use Rattle.rl_names.specs.Scopes.{kept};

use crate::alone::{literal, misplaced, number, range, regular, set};
use crate::levels;
use crate::memory::push;
use crate::places::{concatenation_place, embedded_place, repeated_place, union_place};
use crate::puts::{joined_by, negations, puts, repetitions, united_by};
use crate::scope::Scope;
use crate::used::name;
use rl_draft::{Expression, Link};
use rl_grammar::ReadFault;
use rl_grammar::syntax::{
    Concatenation, ConcatenationPart, Embedded, Negated, Operand, Repeated, Union, UnionPart,
};
use rl_types::List;
use std::alloc::Global;

#[cycle(expressions)]
fn operand(alloc: Global, scope: &Scope<'_>, operand: &Operand) -> Result<Expression, ReadFault>
    ensures { Gives (expressions.operand_told (kept scope.now) operand.now).read result }
{
    match operand {
        Operand::Literal(word) => literal(alloc, scope.alphabet, word),
        Operand::Number(one) => number(alloc, scope.alphabet, one),
        Operand::Range(low, _, high) => range(alloc, scope.alphabet, low, high),
        Operand::Set(word) => set(alloc, scope.alphabet, word),
        Operand::RegularExpression(word) => regular(alloc, scope.alphabet, word),
        Operand::Name(word) => name(alloc, scope, word),
        Operand::Group(_, inner, _) => union(alloc, scope, inner.get()),
        Operand::Scanner(inner) => misplaced(inner.get()),
    }
}

#[cycle(expressions)]
#[tactic(auto, using(crate::proofs::LevelLaws::negated_is))]
fn negated(alloc: Global, scope: &Scope<'_>, negated: &Negated) -> Result<Expression, ReadFault>
    ensures { Gives (expressions.negated_told (kept scope.now) negated.now).read result }
{
    let inner = operand(alloc, scope, &negated.operand)?;
    let negations = negations(alloc, negated.negations.as_slice())?;
    levels::negated(alloc, negations, inner)
}

#[cycle(expressions)]
#[tactic(auto, using(crate::proofs::LevelLaws::repeated_is))]
fn repeated(alloc: Global, scope: &Scope<'_>, repeated: &Repeated) -> Result<Expression, ReadFault>
    ensures { Gives (expressions.repeated_told (kept scope.now) repeated.now).read result }
{
    let inner = negated(alloc, scope, &repeated.operand)?;
    let repetitions = repetitions(alloc, repeated.repetitions.as_slice())?;
    levels::repeated(alloc, repetitions, repeated_place(repeated), inner)
}

#[cycle(expressions)]
#[tactic(auto, using(crate::proofs::LevelLaws::embedded_is))]
fn embedded(alloc: Global, scope: &Scope<'_>, embedded: &Embedded) -> Result<Expression, ReadFault>
    ensures { Gives (expressions.embedded_told (kept scope.now) embedded.now).read result }
{
    let inner = repeated(alloc, scope, &embedded.operand)?;
    let puts = puts(alloc, scope, embedded.embeddings.as_slice())?;
    levels::embedded(alloc, puts, embedded_place(embedded), inner)
}

#[cycle(expressions)]
fn concatenation_part(
    alloc: Global,
    scope: &Scope<'_>,
    part: &ConcatenationPart,
) -> Result<Link, ReadFault>
    ensures { Gives (concatenation_part_read (kept scope.now) part.now) result }
{
    let operand = embedded(alloc, scope, &part.operand)?;
    Ok(Link {
        join: joined_by(part.sign),
        operand,
    })
}

#[cycle(expressions)]
fn concatenation_parts(
    alloc: Global,
    scope: &Scope<'_>,
    parts: &[ConcatenationPart],
) -> Result<List<Link>, ReadFault>
    ensures { Gives (each (concatenation_part_read (kept scope.now)) parts.now) result }
{
    let mut links = List::new(alloc);
    for part in parts {
        let link = concatenation_part(alloc, scope, part)?;
        push(&mut links, link)?;
    }
    Ok(links)
}

#[cycle(expressions)]
#[tactic(auto, using(crate::proofs::LevelLaws::concatenation_is))]
fn concatenation(
    alloc: Global,
    scope: &Scope<'_>,
    concatenation: &Concatenation,
) -> Result<Expression, ReadFault>
    ensures { Gives (expressions.concatenation_told (kept scope.now) concatenation.now).read result }
{
    let first = embedded(alloc, scope, &concatenation.first)?;
    let links = concatenation_parts(alloc, scope, concatenation.rest.as_slice())?;
    levels::chain(alloc, links, concatenation_place(concatenation), first)
}

#[cycle(expressions)]
fn union_part(alloc: Global, scope: &Scope<'_>, part: &UnionPart) -> Result<Link, ReadFault>
    ensures { Gives (union_part_read (kept scope.now) part.now) result }
{
    let operand = concatenation(alloc, scope, &part.operand)?;
    Ok(Link {
        join: united_by(part.sign),
        operand,
    })
}

#[cycle(expressions)]
fn union_parts(
    alloc: Global,
    scope: &Scope<'_>,
    parts: &[UnionPart],
) -> Result<List<Link>, ReadFault>
    ensures { Gives (each (union_part_read (kept scope.now)) parts.now) result }
{
    let mut links = List::new(alloc);
    for part in parts {
        let link = union_part(alloc, scope, part)?;
        push(&mut links, link)?;
    }
    Ok(links)
}

/// What an expression is read as.
#[cycle(expressions)]
#[tactic(auto, using(crate::proofs::LevelLaws::union_is))]
pub fn union(alloc: Global, scope: &Scope<'_>, union: &Union) -> Result<Expression, ReadFault>
    ensures { Gives (expressions.union_told (kept scope.now) union.now).read result }
{
    let first = concatenation(alloc, scope, &union.first)?;
    let links = union_parts(alloc, scope, union.rest.as_slice())?;
    levels::chain(alloc, links, union_place(union), first)
}
