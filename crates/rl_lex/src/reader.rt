// The tokens of a block.
ghost use Rattle.std.specs.Prelude.{◌≡◌, ◌<◌, ◌≤◌, ◌^◌, [], ◌∷◌, ◌++◌, length, IfOk, MatchResult};
ghost use Rattle.rl_lexical.specs.Answers.{Gives};
ghost use Rattle.rl_lexical.specs.Blocks.{body_text};
ghost use Rattle.rl_lexical.specs.Contexts.{first_context};
ghost use Rattle.rl_lexical.specs.Tokens.{gap_before, next_position, next_text, end_token, checked, token_at, tokens_from, block_tokens, AreSlices, EndsAt};
ghost use Rattle.rl_lexical.specs.Places.{position_behind};
ghost use Rattle.rl_lex.specs.Room.{HasRoom};
ghost use Rattle.rl_lexical.specs.Forms.{fault_of};
ghost use Rattle.rl_grammar.specs.declared.read_fault.ReadFault.TheVariants as reason;
ghost use Rattle.rl_lex.specs.Steps.{IsAtNext, IsPassed, IsNext};

use crate::bytes::blanks_len;
use crate::context::{context_behind, first_context, is_text};
use crate::fault::fault_of;
use crate::front::token_in_front;
use crate::gap::gap_len;
use crate::memory::{copied, push};
use crate::place::position_behind;
use rl_grammar::{ReadFault, Token, TokenKind};
use rl_lexical::{Block, Context, Position};
use rl_types::{Fault, FaultKind, List, Place};
use std::alloc::Global;

/// A fault of this kind at a place.
pub fn fault_at(kind: FaultKind, place: Place) -> ReadFault
    ensures { result ≡ reason.Fault (record { kind = kind; place = place }) }
{
    ReadFault::Fault(Fault { kind, place })
}

/// How many bytes stand before the next token.
fn gap_before(context: Context, text: &[u8]) -> usize
    ensures value { result ≡ gap_before context text.now }
    ensures bound { result ≤ length text.now }
{
    if is_text(context.expected) {
        blanks_len(text)
    } else {
        gap_len(text)
    }
}

/// Where the next token stands, and what is left there.
pub fn at_next(context: Context, at: Position, text: &[u8]) -> (Position, &[u8])
    requires { HasRoom at (length text.now) }
    ensures { IsAtNext context at text.now result.0 result.1.now }
{
    let (gap, rest) = text.split_at(gap_before(context, text));
    (position_behind(at, gap), rest)
}

/// The end of a block, as a token.
fn end_token(alloc: Global, at: Position) -> Token
    ensures { result ≡ end_token at }
{
    Token {
        kind: TokenKind::End,
        text: List::new(alloc),
        from: at.from,
        place: at.place,
    }
}

/// A token, where nothing is wrong with it.
fn checked(alloc: Global, at: Position, kind: TokenKind, text: &[u8]) -> Result<Token, ReadFault>
    ensures answer { Gives (checked at kind text.now (fault_of kind text.now)) result }
    ensures text { IfOk result (λ token. token.text ≡ text.now) }
{
    match fault_of(kind, text) {
        Some(fault) => Err(fault_at(fault, at.place)),
        None => {
            let text = copied(alloc, text)?;
            Ok(Token {
                kind,
                text,
                from: at.from,
                place: at.place,
            })
        }
    }
}

/// The token that stands here.
fn token_at(alloc: Global, context: Context, at: Position, text: &[u8]) -> Result<Token, ReadFault>
    requires { length text.now < 2 ^ 63 }
    ensures answer { Gives (token_at context at text.now) result }
    ensures bound { IfOk result (λ token. length token.text ≤ length text.now) }
{
    match token_in_front(context, text) {
        None => Err(fault_at(FaultKind::F1, at.place)),
        Some((kind, len)) => checked(alloc, at, kind, &text[..len]),
    }
}

/// What stands next in a block.
#[derive(Debug, Drop)]
enum Next<'a> {
    /// Its end.
    End(Position),
    /// A token.
    Token(After<'a>),
}

/// A token, and the context, the position and the text behind it.
#[derive(Debug, Drop)]
struct After<'a> {
    token: Token,
    context: Context,
    at: Position,
    rest: &'a [u8],
}

/// A token that stands here, with what is behind it.
fn passed<'a>(context: Context, here: Position, text: &'a [u8], token: Token) -> After<'a>
    requires bound { length token.text ≤ length text.now }
    requires room { HasRoom here (length text.now) }
    ensures { IsPassed context here text.now token result }
{
    let (_, rest) = text.split_at(token.text.len());
    let context = context_behind(context, token.kind, token.text.as_slice());
    let at = position_behind(here, token.text.as_slice());
    After {
        token,
        context,
        at,
        rest,
    }
}

/// What stands next.
fn next_token<'a>(
    alloc: Global,
    context: Context,
    at: Position,
    text: &'a [u8],
) -> Result<Next<'a>, ReadFault>
    requires { HasRoom at (length text.now) }
    ensures { IsNext context at text.now result }
{
    let (here, rest) = at_next(context, at, text);
    if rest.is_empty() {
        return Ok(Next::End(here));
    }
    let token = token_at(alloc, context, here, rest)?;
    Ok(Next::Token(passed(context, here, rest, token)))
}

/// The tokens that are found, and the end of their block.
fn ended(alloc: Global, mut found: List<Token>, at: Position) -> Result<List<Token>, ReadFault>
    ensures { MatchResult result (λ tokens. tokens ≡ found ++ end_token at ∷ []) (λ e. e ≡ reason.Memory) }
{
    push(&mut found, end_token(alloc, at))?;
    Ok(found)
}

/// The tokens of a text that stands at a position, and its end.
fn tokens_from(alloc: Global, start: Position, text: &[u8]) -> Result<List<Token>, ReadFault>
    requires { HasRoom start (length text.now) }
    ensures { Gives (tokens_from (length text.now) first_context start text.now) result }
{
    let mut found = List::new(alloc);
    let mut context = first_context();
    let mut at = start;
    let mut rest = text;
    for _turn in 0..text.len() {
        match next_token(alloc, context, at, rest)? {
            Next::End(here) => return ended(alloc, found, here),
            Next::Token(after) => {
                push(&mut found, after.token)?;
                context = after.context;
                at = after.at;
                rest = after.rest;
            }
        }
    }
    ended(alloc, found, at)
}

#[tactic(auto, using(crate::proofs::TokenLaws::of_the_block, crate::proofs::TokenLaws::at_the_end))]
/// The tokens of a block, the last of which is its end. Each is the longest that begins there, but for the text of
/// `access` and `variable`, which reaches to its `;`, and the code of an action, which begins in its places alone. What
/// stands between them is blanks and comments (the guide's section 2.2).
///
/// F1 comes at a byte that begins no token, and at the first byte of a set or a regular expression that has not the
/// form of one. F7 comes at an integer that does not fit 64 bits with a sign. The first in text order is told.
pub fn tokens(alloc: Global, block: &Block) -> Result<List<Token>, ReadFault>
    ensures answer { Gives (block_tokens block.now) result }
    ensures ends { IfOk result (λ tokens. EndsAt (position_behind block.now.body.at (body_text block.now)) tokens) }
    ensures slices { IfOk result (λ tokens. AreSlices block.now.body.at (body_text block.now) tokens) }
{
    let (text, at) = block.body();
    tokens_from(alloc, at, text)
}
