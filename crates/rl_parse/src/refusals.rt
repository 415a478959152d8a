// What a token decides beside the grammar.
ghost use Rattle.std.specs.Prelude.{◌≡◌, ◌<◌, ◌+◌, ◌^◌, length, take, slice_get, true, None, MatchOption};
ghost use Rattle.rl_grammar.specs.Refusals as spec;
ghost use Rattle.rl_grammar.specs.declared.token.TokenKind.TheVariants as k;
ghost use Rattle.rl_parse.specs.Parse.{IsFirst};

use crate::numbers::number;
use rl_grammar::{ReadFault, Token, TokenKind};
use rl_types::{Fault, FaultKind, Limit, LimitKind, MOST_PARENTHESES, Place};

fn kind_at(tokens: &[Token], at: usize, kind: TokenKind) -> bool
    ensures { result ≡ spec.is_at kind tokens.now at }
{
    match tokens.get(at) {
        None => false,
        Some(token) => token.kind.is(kind),
    }
}

fn kind_before(tokens: &[Token], at: usize, kind: TokenKind) -> bool
    ensures { result ≡ spec.is_before kind tokens.now at }
{
    at >= 1 && kind_at(tokens, at - 1, kind)
}

/// The place of the token at this index.
pub fn place_at(tokens: &[Token], at: usize) -> Place
    ensures { result ≡ spec.place_at tokens.now at }
{
    match tokens.get(at) {
        None => Place {
            file: 0,
            line: 1,
            col: 1,
        },
        Some(token) => token.place,
    }
}

/// The text of the token at this index.
fn text_at(tokens: &[Token], at: usize) -> &[u8]
    ensures { result.now ≡ spec.text_of (slice_get tokens.now at) }
{
    match tokens.get(at) {
        None => b"".as_slice(),
        Some(token) => token.text.as_slice(),
    }
}

#[tactic(auto, using(crate::proofs::DigitLaws::fits_at))]
fn number_at(tokens: &[Token], at: usize) -> u64
    requires numbers { spec.NumbersFit tokens.now }
    requires integer { spec.is_at k.Integer tokens.now at ≡ true }
    ensures { result ≡ spec.number_at tokens.now at }
{
    number(text_at(tokens, at))
}

/// The fault of a token that the grammar does not have there.
pub fn syntax_fault(tokens: &[Token], at: usize) -> ReadFault
    ensures { result ≡ spec.syntax_fault (spec.place_at tokens.now at) }
{
    let kind = FaultKind::F3;
    let place = place_at(tokens, at);
    ReadFault::Fault(Fault { kind, place })
}

fn too_deep(depth: usize, tokens: &[Token], at: usize) -> Option<ReadFault>
    requires { depth ≡ spec.opened 0 (take at tokens.now) }
    ensures { result ≡ spec.too_deep tokens.now at }
{
    if kind_at(tokens, at, TokenKind::OpenParenthesis) && MOST_PARENTHESES <= depth {
        let kind = LimitKind::L3;
        let place = place_at(tokens, at);
        Some(ReadFault::Limit(Limit { kind, place }))
    } else {
        None
    }
}

/// Whether the tokens up to this index end in a count of two numbers.
fn is_count(tokens: &[Token], at: usize) -> bool
    ensures { result ≡ spec.is_count tokens.now at }
{
    at >= 4
        && kind_at(tokens, at - 4, TokenKind::OpenBrace)
        && kind_at(tokens, at - 3, TokenKind::Integer)
        && kind_at(tokens, at - 2, TokenKind::Comma)
        && kind_at(tokens, at - 1, TokenKind::Integer)
        && kind_at(tokens, at, TokenKind::CloseBrace)
}

fn falls(tokens: &[Token], at: usize) -> bool
    requires { spec.NumbersFit tokens.now }
    ensures { result ≡ spec.falls tokens.now at }
{
    is_count(tokens, at) && number_at(tokens, at - 1) < number_at(tokens, at - 3)
}

fn falling_count(tokens: &[Token], at: usize) -> Option<ReadFault>
    requires { spec.NumbersFit tokens.now }
    ensures { result ≡ spec.falling_count tokens.now at }
{
    if falls(tokens, at) {
        let kind = FaultKind::F10;
        let place = place_at(tokens, at - 4);
        Some(ReadFault::Fault(Fault { kind, place }))
    } else {
        None
    }
}

fn fault_there(scanner: Option<Place>) -> Option<ReadFault>
    ensures { result ≡ spec.fault_there scanner }
{
    let kind = FaultKind::F11;
    match scanner {
        None => None,
        Some(place) => Some(ReadFault::Fault(Fault { kind, place })),
    }
}

fn scanner_goes_on(scanner: Option<Place>, tokens: &[Token], at: usize) -> Option<ReadFault>
    requires { scanner ≡ spec.last_scanner None (take at tokens.now) }
    ensures { result ≡ spec.scanner_goes_on tokens.now at }
{
    if kind_before(tokens, at, TokenKind::CloseScanner)
        && !kind_at(tokens, at, TokenKind::Semicolon)
    {
        fault_there(scanner)
    } else {
        None
    }
}

fn scanner_misplaced(tokens: &[Token], at: usize) -> Option<ReadFault>
    ensures { result ≡ spec.scanner_misplaced tokens.now at }
{
    if kind_at(tokens, at, TokenKind::OpenScanner)
        && !kind_before(tokens, at, TokenKind::ColonEquals)
    {
        fault_there(Some(place_at(tokens, at)))
    } else {
        None
    }
}

fn or_else(first: Option<ReadFault>, second: Option<ReadFault>) -> Option<ReadFault>
    ensures { result ≡ spec.or_else first second }
{
    match first {
        None => second,
        Some(fault) => Some(fault),
    }
}

/// What the token at this index decides, where so many parentheses are open before it and this is the last `|*`.
#[tactic(auto, unfolding(rl_grammar::specs::Refusals::refusal_at))]
fn refusal_at(
    depth: usize,
    scanner: Option<Place>,
    tokens: &[Token],
    at: usize,
) -> Option<ReadFault>
    requires numbers { spec.NumbersFit tokens.now }
    requires counted { depth ≡ spec.opened 0 (take at tokens.now) }
    requires found { scanner ≡ spec.last_scanner None (take at tokens.now) }
    ensures { result ≡ spec.refusal_at tokens.now at }
{
    let own = or_else(falling_count(tokens, at), scanner_misplaced(tokens, at));
    let deep = or_else(too_deep(depth, tokens, at), own);
    or_else(scanner_goes_on(scanner, tokens, at), deep)
}

fn opened_by(depth: usize, kind: TokenKind) -> usize
    requires { depth + 1 < 2 ^ 64 }
    ensures { result ≡ spec.opened_by depth kind }
{
    match kind {
        TokenKind::OpenParenthesis => depth + 1,
        TokenKind::CloseParenthesis => depth.saturating_sub(1),
        _ => depth,
    }
}

fn scanner_by(scanner: Option<Place>, token: &Token) -> Option<Place>
    ensures { result ≡ spec.scanner_by scanner token.now }
{
    if token.kind.is(TokenKind::OpenScanner) {
        Some(token.place)
    } else {
        scanner
    }
}

/// The first token that decides a refusal, and which.
pub fn first_refusal(tokens: &[Token]) -> Option<(usize, ReadFault)>
    requires { spec.NumbersFit tokens.now }
    ensures { MatchOption result (spec.NoneBefore tokens.now (length tokens.now)) (λ x. IsFirst x.1 tokens.now x.0) }
{
    let mut depth: usize = 0;
    let mut scanner: Option<Place> = None;
    for at in 0..tokens.len() {
        if let Some(refusal) = refusal_at(depth, scanner, tokens, at) {
            return Some((at, refusal));
        }
        depth = opened_by(depth, tokens[at].kind);
        scanner = scanner_by(scanner, &tokens[at]);
    }
    None
}
