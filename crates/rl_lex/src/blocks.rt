// The end of a block.
ghost use Rattle.std.specs.Prelude.{◌≡◌, ◌+◌, ◌<◌, ◌≤◌, ◌^◌, true, length, IfOk, nat_eq, codes};
ghost use Rattle.std.specs.List.{starts_with};
ghost use Rattle.rl_lexical.specs.Answers.{Gives, Explains};
ghost use Rattle.rl_lexical.specs.Parts.{at_next, word_behind, walk_behind, walk_behind_stray, begins_piece, is_end, is_endless, at_end, end_from};
ghost use Rattle.rl_lex.specs.Room.{HasRoom};
ghost use Rattle.rl_lex.specs.Walks.{seen, IsMoved, IsPassing, IsStep};

use crate::bytes::text_len;
use crate::context::{context_behind, context_behind_stray, is_text};
use crate::front::{opened, token_in_front};
use crate::place::position_behind;
use crate::reader::{at_next, fault_at};
use rl_grammar::{ReadFault, TokenKind};
use rl_lexical::{Context, Position, Shape};
use rl_types::{FaultKind, Place};

/// Where the reading of a block stands: its context, its position, what is left, and the word that the next text belongs
/// to.
#[derive(Clone, Copy, Debug)]
pub struct Walk<'a> {
    pub word: Place,
    pub context: Context,
    pub at: Position,
    pub rest: &'a [u8],
}

/// The next token of a walk.
fn next<'a>(walk: Walk<'a>) -> Walk<'a>
    requires { HasRoom walk.at (length walk.rest.now) }
    ensures value { seen result ≡ at_next (seen walk.entry) }
    ensures moved { IsMoved walk.entry result }
{
    let (at, rest) = at_next(walk.context, walk.at, walk.rest);
    Walk {
        word: walk.word,
        context: walk.context,
        at,
        rest,
    }
}

/// Where the word stands to which the next text belongs.
fn word_behind(word: Place, kind: TokenKind, here: Place) -> Place
    ensures { result ≡ word_behind word kind here }
{
    match kind {
        TokenKind::Access | TokenKind::Variable => here,
        _ => word,
    }
}

/// Behind the token that stands here.
fn walk_behind<'a>(walk: Walk<'a>, kind: TokenKind, len: usize) -> Walk<'a>
    requires bound { len ≤ length walk.rest.now }
    requires room { HasRoom walk.at (length walk.rest.now) }
    ensures value { seen result ≡ walk_behind (seen walk.entry) kind len }
    ensures moved { IsMoved walk.entry result }
{
    let (token, rest) = walk.rest.split_at(len);
    Walk {
        word: word_behind(walk.word, kind, walk.at.place),
        context: context_behind(walk.context, kind, token),
        at: position_behind(walk.at, token),
        rest,
    }
}

/// Behind a byte that begins no token.
fn walk_behind_stray<'a>(walk: Walk<'a>) -> Walk<'a>
    requires some { 0 < length walk.rest.now }
    requires room { HasRoom walk.at (length walk.rest.now) }
    ensures value { seen result ≡ walk_behind_stray (seen walk.entry) }
    ensures moved { IsMoved walk.entry result }
{
    let (byte, rest) = walk.rest.split_at(1);
    Walk {
        word: walk.word,
        context: context_behind_stray(walk.context),
        at: position_behind(walk.at, byte),
        rest,
    }
}

/// Whether a literal, a set, a regular expression or code begins here.
fn begins_piece(context: Context, text: &[u8]) -> bool
    ensures { result ≡ begins_piece context text.now }
{
    match text {
        [] => false,
        [first, ..] => opened(context, *first).is_some(),
    }
}

/// Whether a block of this shape ends here.
fn is_end(shape: Shape, text: &[u8]) -> bool
    ensures { result ≡ is_end shape text.now }
{
    match shape {
        Shape::Braced => text.starts_with(b"}%%".as_slice()),
        Shape::Line => text.is_empty(),
    }
}

/// Whether the text of `access` or `variable` has no end.
fn is_endless(text: &[u8]) -> bool
    ensures { result ≡ is_endless text.now }
{
    text_len(text) == text.len()
}

/// Behind what stands here.
fn passed<'a>(walk: Walk<'a>) -> Result<Walk<'a>, ReadFault>
    requires some { 0 < length walk.rest.now }
    requires room { HasRoom walk.at (length walk.rest.now) }
    ensures { IsPassing walk.entry result }
{
    match token_in_front(walk.context, walk.rest) {
        Some((kind, len)) => Ok(walk_behind(walk, kind, len)),
        None if begins_piece(walk.context, walk.rest) => {
            Err(fault_at(FaultKind::F2, walk.at.place))
        }
        None => Ok(walk_behind_stray(walk)),
    }
}

/// Behind what stands here, or nowhere at the end of the block, whose `%%` is at a place.
fn step<'a>(shape: Shape, opening: Place, walk: Walk<'a>) -> Result<Option<Walk<'a>>, ReadFault>
    requires room { HasRoom walk.at (length walk.rest.now) }
    ensures { IsStep shape opening walk.entry result }
{
    if is_text(walk.context.expected) {
        if is_endless(walk.rest) {
            return Err(fault_at(FaultKind::F2, walk.word));
        }
    } else if is_end(shape, walk.rest) {
        return Ok(None);
    } else if walk.rest.is_empty() {
        return Err(fault_at(FaultKind::F2, opening));
    }
    let behind = passed(walk)?;
    Ok(Some(behind))
}

/// Where nothing is left.
fn at_end(shape: Shape, opening: Place, at: Position) -> Result<Position, ReadFault>
    ensures answer { Gives (at_end shape opening at) result }
    ensures value { IfOk result (λ end. end ≡ at) }
{
    match shape {
        Shape::Braced => Err(fault_at(FaultKind::F2, opening)),
        Shape::Line => Ok(at),
    }
}

/// The position of the end of the block whose `%%` is at a place, and whose body a walk begins.
pub fn end_from(shape: Shape, opening: Place, start: Walk<'_>) -> Result<Position, ReadFault>
    requires { HasRoom start.at (length start.rest.now) }
    ensures answer { Gives (end_from (length start.entry.rest.now) shape opening (seen start.entry)) result }
    ensures from { IfOk result (λ end. start.entry.at.from ≤ end.from) }
    ensures to { IfOk result (λ end. end.from ≤ start.entry.at.from + length start.entry.rest.now) }
{
    let mut walk = start;
    for _turn in 0..start.rest.len() {
        let here = next(walk);
        match step(shape, opening, here)? {
            None => return Ok(here.at),
            Some(behind) => walk = behind,
        }
    }
    at_end(shape, opening, walk.at)
}
