// Kinds of tokens: which rules they begin, and single tokens told by their kind.
ghost use Rattle.std.specs.Prelude.{◌≡◌, length};
ghost use Rattle.rl_readers.specs.Readers.{sees};
ghost use Rattle.rl_parse.specs.Reading.{Gives};
ghost use Rattle.rl_parse.specs.Rules as rules;

use crate::stop::Stop;
use rl_grammar::syntax::{
    ConcatenationSign, DefinitionSign, Negation, TransitionSign, UnionSign, Word,
};
use rl_grammar::{Token, TokenKind};
use rl_types::{List, Place};
use std::alloc::Global;

/// The kind of the first token. A list without tokens has the kind of the end.
pub fn kind_of(tokens: &[Token]) -> TokenKind
    ensures { result ≡ rules.kind_of tokens.now }
{
    match tokens {
        [] => TokenKind::End,
        [first, ..] => first.kind,
    }
}

/// Whether the first token is of this kind.
pub fn begins_with(tokens: &[Token], kind: TokenKind) -> bool
    ensures { result ≡ sees (rules.is kind) tokens.now }
{
    match tokens {
        [] => false,
        [first, ..] => first.kind.is(kind),
    }
}

pub fn is_name(kind: TokenKind) -> bool
    ensures { result ≡ rules.is_name kind }
{
    matches!(kind, TokenKind::Name)
}

pub fn begins_number(kind: TokenKind) -> bool
    ensures { result ≡ rules.begins_number kind }
{
    matches!(kind, TokenKind::Minus | TokenKind::Integer)
}

pub fn begins_operand(kind: TokenKind) -> bool
    ensures { result ≡ rules.begins_operand kind }
{
    matches!(
        kind,
        TokenKind::Literal
            | TokenKind::Minus
            | TokenKind::Integer
            | TokenKind::Set
            | TokenKind::RegularExpression
            | TokenKind::Name
            | TokenKind::OpenParenthesis
            | TokenKind::OpenScanner
    )
}

pub fn begins_negation(kind: TokenKind) -> bool
    ensures { result ≡ rules.begins_negation kind }
{
    matches!(kind, TokenKind::Exclamation | TokenKind::Caret)
}

pub fn begins_expression(kind: TokenKind) -> bool
    ensures { result ≡ rules.begins_expression kind }
{
    begins_negation(kind) || begins_operand(kind)
}

pub fn begins_repetition(kind: TokenKind) -> bool
    ensures { result ≡ rules.begins_repetition kind }
{
    matches!(
        kind,
        TokenKind::Star
            | TokenKind::DoubleStar
            | TokenKind::Question
            | TokenKind::Plus
            | TokenKind::OpenBrace
    )
}

pub fn begins_transition(kind: TokenKind) -> bool
    ensures { result ≡ rules.begins_transition kind }
{
    matches!(
        kind,
        TokenKind::Greater | TokenKind::At | TokenKind::Dollar | TokenKind::Percent
    )
}

pub fn begins_embedding(kind: TokenKind) -> bool
    ensures { result ≡ rules.begins_embedding kind }
{
    matches!(kind, TokenKind::Mark | TokenKind::When) || begins_transition(kind)
}

pub fn begins_concatenation_sign(kind: TokenKind) -> bool
    ensures { result ≡ rules.begins_concatenation_sign kind }
{
    matches!(
        kind,
        TokenKind::Dot | TokenKind::LeftGuard | TokenKind::EntryGuard | TokenKind::FinishGuard
    )
}

pub fn begins_concatenation_part(kind: TokenKind) -> bool
    ensures { result ≡ rules.begins_concatenation_part kind }
{
    match kind {
        TokenKind::Minus => false,
        other => begins_concatenation_sign(other) || begins_expression(other),
    }
}

pub fn begins_union_part(kind: TokenKind) -> bool
    ensures { result ≡ rules.begins_union_part kind }
{
    matches!(
        kind,
        TokenKind::Bar | TokenKind::Ampersand | TokenKind::Minus | TokenKind::DoubleMinus
    )
}

pub fn begins_definition_sign(kind: TokenKind) -> bool
    ensures { result ≡ rules.begins_definition_sign kind }
{
    matches!(kind, TokenKind::Equals | TokenKind::ColonEquals)
}

pub fn begins_statement(kind: TokenKind) -> bool
    ensures { result ≡ rules.begins_statement kind }
{
    matches!(
        kind,
        TokenKind::Machine
            | TokenKind::Include
            | TokenKind::Alphtype
            | TokenKind::Access
            | TokenKind::Variable
            | TokenKind::Write
            | TokenKind::Action
            | TokenKind::Name
    )
}

/// The place of a token of this kind.
pub fn place(tokens: &[Token], kind: TokenKind) -> Result<(Place, &[Token]), Stop>
    ensures { Gives (λ x. (x.0, x.1.now)) result (rules.place kind tokens.now) }
{
    match tokens {
        [first, rest @ ..] if first.kind.is(kind) => Ok((first.place, rest)),
        _ => Err(Stop::At(tokens.len())),
    }
}

/// A token of this kind, with its text.
pub fn word(alloc: Global, tokens: &[Token], kind: TokenKind) -> Result<(Word, &[Token]), Stop>
    ensures { Gives (λ x. (x.0, x.1.now)) result (rules.word kind tokens.now) }
{
    match tokens {
        [first, rest @ ..] if first.kind.is(kind) => {
            let text = List::from_slice(alloc, first.text.as_slice())?;
            let place = first.place;
            Ok((Word { text, place }, rest))
        }
        _ => Err(Stop::At(tokens.len())),
    }
}

fn transition_of(kind: TokenKind, place: Place) -> TransitionSign
    ensures { result ≡ rules.transition_of kind place }
{
    match kind {
        TokenKind::Greater => TransitionSign::Entering(place),
        TokenKind::At => TransitionSign::Finishing(place),
        TokenKind::Dollar => TransitionSign::All(place),
        _ => TransitionSign::Leaving(place),
    }
}

pub fn transition_sign(tokens: &[Token]) -> Result<(TransitionSign, &[Token]), Stop>
    ensures { Gives (λ x. (x.0, x.1.now)) result (rules.transition_sign tokens.now) }
{
    match tokens {
        [first, rest @ ..] if begins_transition(first.kind) => {
            Ok((transition_of(first.kind, first.place), rest))
        }
        _ => Err(Stop::At(tokens.len())),
    }
}

fn union_of(kind: TokenKind, place: Place) -> UnionSign
    ensures { result ≡ rules.union_of kind place }
{
    match kind {
        TokenKind::Bar => UnionSign::Union(place),
        TokenKind::Ampersand => UnionSign::Intersection(place),
        TokenKind::Minus => UnionSign::Difference(place),
        _ => UnionSign::StrongDifference(place),
    }
}

pub fn union_sign(tokens: &[Token]) -> Result<(UnionSign, &[Token]), Stop>
    ensures { Gives (λ x. (x.0, x.1.now)) result (rules.union_sign tokens.now) }
{
    match tokens {
        [first, rest @ ..] if begins_union_part(first.kind) => {
            Ok((union_of(first.kind, first.place), rest))
        }
        _ => Err(Stop::At(tokens.len())),
    }
}

fn concatenation_of(kind: TokenKind, place: Place) -> ConcatenationSign
    ensures { result ≡ rules.concatenation_of kind place }
{
    match kind {
        TokenKind::Dot => ConcatenationSign::Plain(place),
        TokenKind::LeftGuard => ConcatenationSign::LeftGuarded(place),
        TokenKind::EntryGuard => ConcatenationSign::EntryGuarded(place),
        _ => ConcatenationSign::FinishGuarded(place),
    }
}

pub fn concatenation_sign(tokens: &[Token]) -> Result<(ConcatenationSign, &[Token]), Stop>
    ensures { Gives (λ x. (x.0, x.1.now)) result (rules.concatenation_sign tokens.now) }
{
    match tokens {
        [first, rest @ ..] if begins_concatenation_sign(first.kind) => {
            Ok((concatenation_of(first.kind, first.place), rest))
        }
        _ => Err(Stop::At(tokens.len())),
    }
}

fn negation_of(kind: TokenKind, place: Place) -> Negation
    ensures { result ≡ rules.negation_of kind place }
{
    match kind {
        TokenKind::Exclamation => Negation::Language(place),
        _ => Negation::Character(place),
    }
}

pub fn negation_sign(tokens: &[Token]) -> Result<(Negation, &[Token]), Stop>
    ensures { Gives (λ x. (x.0, x.1.now)) result (rules.negation_sign tokens.now) }
{
    match tokens {
        [first, rest @ ..] if begins_negation(first.kind) => {
            Ok((negation_of(first.kind, first.place), rest))
        }
        _ => Err(Stop::At(tokens.len())),
    }
}

fn definition_of(kind: TokenKind, place: Place) -> DefinitionSign
    ensures { result ≡ rules.definition_of kind place }
{
    match kind {
        TokenKind::Equals => DefinitionSign::Name(place),
        _ => DefinitionSign::Instantiation(place),
    }
}

pub fn definition_sign(tokens: &[Token]) -> Result<(DefinitionSign, &[Token]), Stop>
    ensures { Gives (λ x. (x.0, x.1.now)) result (rules.definition_sign tokens.now) }
{
    match tokens {
        [first, rest @ ..] if begins_definition_sign(first.kind) => {
            Ok((definition_of(first.kind, first.place), rest))
        }
        _ => Err(Stop::At(tokens.len())),
    }
}
