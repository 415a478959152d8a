// Expressions. Each function goes down the rules; what stands inside parentheses or a scanner takes one from `depth`.
ghost use Rattle.std.specs.Prelude.{◌≡◌, length};
ghost use Rattle.rl_parse.specs.Reading.{Gives};
ghost use Rattle.rl_parse.specs.Rules as rules;

use crate::parts::{
    character_range, embeddings, from_character, from_number, negations, number_range,
    pattern_action, repetitions,
};
use crate::signs::{
    begins_concatenation_part, begins_concatenation_sign, begins_expression, begins_union_part,
    begins_with, concatenation_sign, kind_of, place, union_sign, word,
};
use crate::stop::Stop;
use crate::words::{begins_key, begins_plain, plain_literal};
use rl_grammar::syntax::{
    Concatenation, ConcatenationPart, ConcatenationSign, Embedded, Negated, Operand, Pattern,
    Repeated, Scanner, Union, UnionPart,
};
use rl_grammar::{Token, TokenKind};
use rl_types::{Boxed, List, Place};
use std::alloc::Global;

/// An expression that stands inside another, where so many more may stand in one another, itself included.
#[cycle(parser)]
#[tactic(auto, unfolding(crate::specs::Rules::nested))]
fn inner(alloc: Global, depth: usize, tokens: &[Token]) -> Result<(Union, &[Token]), Stop>
    ensures { Gives (λ x. (x.0, x.1.now)) result (rules.nested depth tokens.now) }
{
    if depth == 0 {
        return Err(Stop::At(tokens.len()));
    }
    union(alloc, depth - 1, tokens)
}

/// An expression in parentheses.
#[cycle(parser)]
#[tactic(auto, unfolding(crate::specs::Rules::group))]
fn group(
    alloc: Global,
    depth: usize,
    tokens: &[Token],
) -> Result<((Place, (Union, Place)), &[Token]), Stop>
    ensures { Gives (λ x. (x.0, x.1.now)) result (rules.group (rules.nested depth) tokens.now) }
{
    let (opening, rest) = place(tokens, TokenKind::OpenParenthesis)?;
    let (value, rest) = inner(alloc, depth, rest)?;
    let (closing, rest) = place(rest, TokenKind::CloseParenthesis)?;
    Ok(((opening, (value, closing)), rest))
}

/// A pattern of a scanner.
#[cycle(parser)]
#[tactic(auto, unfolding(crate::specs::Rules::pattern))]
fn pattern(alloc: Global, depth: usize, tokens: &[Token]) -> Result<(Pattern, &[Token]), Stop>
    ensures { Gives (λ x. (x.0, x.1.now)) result (rules.pattern (rules.nested depth) tokens.now) }
{
    let (value, rest) = inner(alloc, depth, tokens)?;
    let (action, rest) = pattern_action(alloc, rest)?;
    let (semicolon, rest) = place(rest, TokenKind::Semicolon)?;
    Ok((
        Pattern {
            value,
            action,
            semicolon,
        },
        rest,
    ))
}

#[cycle(parser)]
fn patterns(
    alloc: Global,
    depth: usize,
    tokens: &[Token],
) -> Result<(List<Pattern>, &[Token]), Stop>
    ensures { Gives (λ x. (x.0, x.1.now)) result (rules.patterns (rules.nested depth) tokens.now) }
{
    let mut found = List::new(alloc);
    let mut rest = tokens;
    for _turn in 0..tokens.len() {
        if !begins_expression(kind_of(rest)) {
            break;
        }
        let (one, after) = pattern(alloc, depth, rest)?;
        found.push(one)?;
        rest = after;
    }
    Ok((found, rest))
}

#[cycle(parser)]
#[tactic(auto, unfolding(crate::specs::Rules::scanner))]
fn scanner(alloc: Global, depth: usize, tokens: &[Token]) -> Result<(Scanner, &[Token]), Stop>
    ensures { Gives (λ x. (x.0, x.1.now)) result (rules.scanner (rules.nested depth) tokens.now) }
{
    let (opening, rest) = place(tokens, TokenKind::OpenScanner)?;
    let (first, rest) = pattern(alloc, depth, rest)?;
    let (more, rest) = patterns(alloc, depth, rest)?;
    let (closing, rest) = place(rest, TokenKind::CloseScanner)?;
    Ok((
        Scanner {
            opening,
            first,
            rest: more,
            closing,
        },
        rest,
    ))
}

#[cycle(parser)]
#[tactic(auto, unfolding(crate::specs::Rules::operand, rl_grammar::specs::Lexeme::same_kind))]
fn operand(alloc: Global, depth: usize, tokens: &[Token]) -> Result<(Operand, &[Token]), Stop>
    ensures { Gives (λ x. (x.0, x.1.now)) result (rules.operand (rules.nested depth) tokens.now) }
{
    if begins_key(tokens) {
        let ((word, high), rest) = character_range(alloc, tokens)?;
        return Ok((from_character(word, high), rest));
    }
    if begins_plain(tokens) {
        let (word, rest) = plain_literal(alloc, tokens)?;
        return Ok((Operand::Literal(word), rest));
    }
    other_operand(alloc, depth, tokens)
}

/// An operand that is no literal.
#[cycle(parser)]
#[tactic(auto, unfolding(crate::specs::Rules::other_operand, rl_grammar::specs::Lexeme::same_kind))]
fn other_operand(alloc: Global, depth: usize, tokens: &[Token]) -> Result<(Operand, &[Token]), Stop>
    ensures { Gives (λ x. (x.0, x.1.now)) result (rules.other_operand (rules.nested depth) tokens.now) }
{
    match kind_of(tokens) {
        TokenKind::Minus | TokenKind::Integer => {
            let ((number, high), rest) = number_range(alloc, tokens)?;
            Ok((from_number(number, high), rest))
        }
        TokenKind::Set => {
            let (set, rest) = word(alloc, tokens, TokenKind::Set)?;
            Ok((Operand::Set(set), rest))
        }
        TokenKind::RegularExpression => {
            let (expression, rest) = word(alloc, tokens, TokenKind::RegularExpression)?;
            Ok((Operand::RegularExpression(expression), rest))
        }
        TokenKind::Name => {
            let (name, rest) = word(alloc, tokens, TokenKind::Name)?;
            Ok((Operand::Name(name), rest))
        }
        TokenKind::OpenParenthesis => {
            let ((opening, (value, closing)), rest) = group(alloc, depth, tokens)?;
            Ok((
                Operand::Group(opening, Boxed::new(alloc, value)?, closing),
                rest,
            ))
        }
        _ => {
            let (scanner, rest) = scanner(alloc, depth, tokens)?;
            Ok((Operand::Scanner(Boxed::new(alloc, scanner)?), rest))
        }
    }
}

#[cycle(parser)]
#[tactic(auto, unfolding(crate::specs::Rules::negated))]
fn negated(alloc: Global, depth: usize, tokens: &[Token]) -> Result<(Negated, &[Token]), Stop>
    ensures { Gives (λ x. (x.0, x.1.now)) result (rules.negated (rules.nested depth) tokens.now) }
{
    let (negations, rest) = negations(alloc, tokens)?;
    let (operand, rest) = operand(alloc, depth, rest)?;
    Ok((Negated { negations, operand }, rest))
}

#[cycle(parser)]
#[tactic(auto, unfolding(crate::specs::Rules::repeated))]
fn repeated(alloc: Global, depth: usize, tokens: &[Token]) -> Result<(Repeated, &[Token]), Stop>
    ensures { Gives (λ x. (x.0, x.1.now)) result (rules.repeated (rules.nested depth) tokens.now) }
{
    let (operand, rest) = negated(alloc, depth, tokens)?;
    let (repetitions, rest) = repetitions(alloc, rest)?;
    Ok((
        Repeated {
            operand,
            repetitions,
        },
        rest,
    ))
}

#[cycle(parser)]
#[tactic(auto, unfolding(crate::specs::Rules::embedded))]
fn embedded(alloc: Global, depth: usize, tokens: &[Token]) -> Result<(Embedded, &[Token]), Stop>
    ensures { Gives (λ x. (x.0, x.1.now)) result (rules.embedded (rules.nested depth) tokens.now) }
{
    let (operand, rest) = repeated(alloc, depth, tokens)?;
    let (embeddings, rest) = embeddings(alloc, rest)?;
    Ok((
        Embedded {
            operand,
            embeddings,
        },
        rest,
    ))
}

/// An operand behind a sign.
#[cycle(parser)]
#[tactic(auto, unfolding(crate::specs::Rules::joined))]
fn joined(
    alloc: Global,
    depth: usize,
    tokens: &[Token],
) -> Result<((ConcatenationSign, Embedded), &[Token]), Stop>
    ensures { Gives (λ x. (x.0, x.1.now)) result (rules.joined (rules.nested depth) tokens.now) }
{
    let (sign, rest) = concatenation_sign(tokens)?;
    let (operand, rest) = embedded(alloc, depth, rest)?;
    Ok(((sign, operand), rest))
}

/// An operand that stands beside another.
#[cycle(parser)]
#[tactic(auto, unfolding(crate::specs::Rules::adjacent))]
fn adjacent(alloc: Global, depth: usize, tokens: &[Token]) -> Result<(Embedded, &[Token]), Stop>
    ensures { Gives (λ x. (x.0, x.1.now)) result (rules.adjacent (rules.nested depth) tokens.now) }
{
    if begins_with(tokens, TokenKind::Minus) {
        return Err(Stop::At(tokens.len()));
    }
    embedded(alloc, depth, tokens)
}

#[cycle(parser)]
#[tactic(auto, unfolding(crate::specs::Rules::concatenation_part))]
fn concatenation_part(
    alloc: Global,
    depth: usize,
    tokens: &[Token],
) -> Result<(ConcatenationPart, &[Token]), Stop>
    ensures { Gives (λ x. (x.0, x.1.now)) result (rules.concatenation_part (rules.nested depth) tokens.now) }
{
    if begins_concatenation_sign(kind_of(tokens)) {
        let ((sign, operand), rest) = joined(alloc, depth, tokens)?;
        let sign = Some(sign);
        Ok((ConcatenationPart { sign, operand }, rest))
    } else {
        let (operand, rest) = adjacent(alloc, depth, tokens)?;
        let sign = None;
        Ok((ConcatenationPart { sign, operand }, rest))
    }
}

#[cycle(parser)]
fn concatenation_parts(
    alloc: Global,
    depth: usize,
    tokens: &[Token],
) -> Result<(List<ConcatenationPart>, &[Token]), Stop>
    ensures { Gives (λ x. (x.0, x.1.now)) result (rules.concatenation_parts (rules.nested depth) tokens.now) }
{
    let mut found = List::new(alloc);
    let mut rest = tokens;
    for _turn in 0..tokens.len() {
        if !begins_concatenation_part(kind_of(rest)) {
            break;
        }
        let (one, after) = concatenation_part(alloc, depth, rest)?;
        found.push(one)?;
        rest = after;
    }
    Ok((found, rest))
}

#[cycle(parser)]
#[tactic(auto, unfolding(crate::specs::Rules::concatenated))]
fn concatenation(
    alloc: Global,
    depth: usize,
    tokens: &[Token],
) -> Result<(Concatenation, &[Token]), Stop>
    ensures { Gives (λ x. (x.0, x.1.now)) result (rules.concatenated (rules.nested depth) tokens.now) }
{
    let (first, rest) = embedded(alloc, depth, tokens)?;
    let (parts, rest) = concatenation_parts(alloc, depth, rest)?;
    Ok((Concatenation { first, rest: parts }, rest))
}

#[cycle(parser)]
#[tactic(auto, unfolding(crate::specs::Rules::union_part))]
fn union_part(alloc: Global, depth: usize, tokens: &[Token]) -> Result<(UnionPart, &[Token]), Stop>
    ensures { Gives (λ x. (x.0, x.1.now)) result (rules.union_part (rules.nested depth) tokens.now) }
{
    let (sign, rest) = union_sign(tokens)?;
    let (operand, rest) = concatenation(alloc, depth, rest)?;
    Ok((UnionPart { sign, operand }, rest))
}

#[cycle(parser)]
fn union_parts(
    alloc: Global,
    depth: usize,
    tokens: &[Token],
) -> Result<(List<UnionPart>, &[Token]), Stop>
    ensures { Gives (λ x. (x.0, x.1.now)) result (rules.union_parts (rules.nested depth) tokens.now) }
{
    let mut found = List::new(alloc);
    let mut rest = tokens;
    for _turn in 0..tokens.len() {
        if !begins_union_part(kind_of(rest)) {
            break;
        }
        let (one, after) = union_part(alloc, depth, rest)?;
        found.push(one)?;
        rest = after;
    }
    Ok((found, rest))
}

/// An expression, in which so many more may stand in one another.
#[cycle(parser)]
#[tactic(auto, unfolding(crate::specs::Rules::united))]
pub fn union(alloc: Global, depth: usize, tokens: &[Token]) -> Result<(Union, &[Token]), Stop>
    ensures { Gives (λ x. (x.0, x.1.now)) result (rules.united (rules.nested depth) tokens.now) }
{
    let (first, rest) = concatenation(alloc, depth, tokens)?;
    let (parts, rest) = union_parts(alloc, depth, rest)?;
    Ok((Union { first, rest: parts }, rest))
}
