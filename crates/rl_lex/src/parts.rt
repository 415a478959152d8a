// The parts of a file.
ghost use Rattle.std.specs.Prelude.{◌≡◌, ◌+◌, ◌-◌, ◌<◌, ◌≤◌, ◌^◌, ◌==◌, [], ◌∷◌, ◌++◌, true, false, length, take, drop, if◌then◌else◌, IfOk, MatchResult};
ghost use Rattle.rl_types.specs.Limits.{most_source_bytes};
ghost use Rattle.rl_lexical.specs.Answers.{Gives};
ghost use Rattle.rl_lexical.specs.Blocks.{IsBlock};
ghost use Rattle.rl_lexical.specs.Parts.{begins_block, shape_of, opening_len, closing_len, reach, before_body, block_end, block_of, is_fresh, is_marked, earlier, file_start, parts_from, file_parts, text_of};
ghost use Rattle.rl_grammar.specs.declared.read_fault.ReadFault.TheVariants as reason;
ghost use Rattle.rl_lex.specs.Room.{HasRoom};
ghost use Rattle.rl_lex.specs.Regions.{IsHead, IsHostPart, IsBehindBlock, IsBlockPart, IsPart, IsEarlier};
ghost use Rattle.rl_lexical.specs.Bytes.{is_empty};

use crate::blocks::{Walk, end_from};
use crate::bytes::{line_blanks_len, line_len};
use crate::context::first_context;
use crate::lines::{host_len, is_marked, mark_at, marked, marked_line, shape_of};
use crate::memory::{copied, push};
use crate::place::{is_before, position_behind};
use rl_grammar::ReadFault;
use rl_lexical::{Block, Body, Part, Position, Shape};
use rl_types::{Fault, List, Place};
use std::alloc::Global;

/// How many bytes the mark has that begins a block of this shape.
fn opening_len(shape: Shape) -> usize
    ensures value { result ≡ opening_len shape }
    ensures bound { result ≤ 3 }
{
    match shape {
        Shape::Braced => 3,
        Shape::Line => 2,
    }
}

/// How many bytes of what is left end a block of this shape.
fn closing_len(shape: Shape, rest: &[u8]) -> usize
    ensures value { result ≡ closing_len shape rest.now }
    ensures bound { result ≤ 3 }
{
    match shape {
        Shape::Braced => 3,
        Shape::Line => rest.len().min(1),
    }
}

/// What a block of this shape may hold.
fn reach(shape: Shape, rest: &[u8]) -> &[u8]
    ensures value { result.now ≡ reach shape rest.now }
    ensures bound { length result.now ≤ length rest.now }
{
    match shape {
        Shape::Braced => rest,
        Shape::Line => {
            let (line, _) = rest.split_at(line_len(rest));
            line
        }
    }
}

/// The first bytes of a text, or all of it.
fn front(text: &[u8], n: usize) -> &[u8]
    ensures { result.now ≡ take n text.now }
{
    match text.get(..n) {
        Some(front) => front,
        None => text,
    }
}

/// What stands before the body of a block: its shape, the bytes of its text before its body, the place of its `%%`, and
/// where the body begins.
#[derive(Clone, Copy, Debug)]
struct Head {
    shape: Shape,
    before: usize,
    mark: Place,
    body: Position,
}

/// How many bytes stand before the body of a block.
#[tactic(auto, using(crate::proofs::PartLaws::body_fits))]
fn before_body(text: &[u8]) -> usize
    requires { begins_block text.now ≡ true }
    ensures value { result ≡ before_body text.now }
    ensures bound { result ≤ length text.now }
{
    line_blanks_len(text) + opening_len(shape_of(text))
}

/// The head of the block that a text begins with.
fn head_of(at: Position, text: &[u8]) -> Head
    requires begins { begins_block text.now ≡ true }
    requires room { HasRoom at (length text.now) }
    ensures { IsHead at text.now result }
{
    let before = before_body(text);
    let (opening, _) = text.split_at(before);
    Head {
        shape: shape_of(text),
        before,
        mark: mark_at(at, text).place,
        body: position_behind(at, opening),
    }
}

/// The end of the block that a text begins with.
fn block_end(at: Position, text: &[u8], head: Head) -> Result<Position, ReadFault>
    requires { IsHead at text.now head }
    ensures answer { Gives (block_end at text.now) result }
    ensures from { IfOk result (λ end. head.body.from ≤ end.from) }
    ensures to { IfOk result (λ end. end.from + head.before ≤ head.body.from + length text.now) }
{
    let (_, rest) = text.split_at(head.before);
    let rest = reach(head.shape, rest);
    let start = Walk {
        word: head.mark,
        context: first_context(),
        at: head.body,
        rest,
    };
    end_from(head.shape, head.mark, start)
}

/// The block that a text begins with, which has this end.
fn block_of(
    alloc: Global,
    at: Position,
    text: &[u8],
    head: Head,
    end: Position,
) -> Result<Block, ReadFault>
    requires head { IsHead at text.now head }
    requires from { head.body.from ≤ end.from }
    requires to { end.from + head.before ≤ head.body.from + length text.now }
    ensures value { MatchResult result (λ block. block ≡ block_of at text.now end) (λ e. e ≡ reason.Memory) }
    ensures bound { IfOk result (λ block. length block.text ≤ length text.now) }
{
    let inside = end.from - head.body.from;
    let behind = head.before + inside as usize;
    let (_, rest) = text.split_at(behind);
    let whole = front(text, behind + closing_len(head.shape, rest));
    let whole = copied(alloc, whole)?;
    let body = Body {
        before: head.before as u64,
        length: inside,
        at: head.body,
    };
    Ok(Block::new(whole, at.from, head.mark, end.place, body))
}

/// A part that is read, and where the next one stands.
#[derive(Debug, Drop)]
struct Region<'a> {
    part: Part,
    fresh: bool,
    at: Position,
    rest: &'a [u8],
}

/// Whether a line begins behind a block of this shape.
fn is_fresh(shape: Shape) -> bool
    ensures { result ≡ is_fresh shape }
{
    match shape {
        Shape::Braced => false,
        Shape::Line => true,
    }
}

/// Whether a marker stands behind a block.
fn is_marked_behind(fresh: bool, rest: &[u8]) -> bool
    ensures { result ≡ (if fresh then false else is_marked rest.now) }
{
    !fresh && is_marked(rest)
}

/// The host text that a text begins with.
fn host_part<'a>(
    alloc: Global,
    len: usize,
    at: Position,
    text: &'a [u8],
) -> Result<Region<'a>, ReadFault>
    requires bound { len ≤ length text.now }
    requires room { HasRoom at (length text.now) }
    ensures { IsHostPart len at text.now result }
{
    let (host, rest) = text.split_at(len);
    let part = Part::Host(copied(alloc, host)?);
    Ok(Region {
        part,
        fresh: true,
        at: position_behind(at, host),
        rest,
    })
}

/// Where the next part stands behind a block, if no marker stands there.
fn behind_block<'a>(
    fresh: bool,
    at: Position,
    text: &'a [u8],
    block: Block,
) -> Result<Region<'a>, ReadFault>
    requires bound { length block.text ≤ length text.now }
    requires room { HasRoom at (length text.now) }
    ensures { IsBehindBlock fresh at text.now block result }
{
    let at = position_behind(at, block.text());
    let (_, rest) = text.split_at(block.text().len());
    if is_marked_behind(fresh, rest) {
        return Err(ReadFault::Fault(marked(mark_at(at, rest))));
    }
    let part = Part::Block(block);
    Ok(Region {
        part,
        fresh,
        at,
        rest,
    })
}

/// The block that a text begins with.
fn block_part<'a>(alloc: Global, at: Position, text: &'a [u8]) -> Result<Region<'a>, ReadFault>
    requires begins { begins_block text.now ≡ true }
    requires room { HasRoom at (length text.now) }
    ensures { IsBlockPart at text.now result }
{
    let head = head_of(at, text);
    let end = block_end(at, text, head)?;
    let block = block_of(alloc, at, text, head, end)?;
    behind_block(is_fresh(head.shape), at, text, block)
}

/// The part that stands here.
fn next_part<'a>(
    alloc: Global,
    fresh: bool,
    at: Position,
    text: &'a [u8],
) -> Result<Region<'a>, ReadFault>
    requires some { is_empty text.now ≡ false }
    requires room { HasRoom at (length text.now) }
    ensures { IsPart fresh at text.now result }
{
    let len = host_len(fresh, text);
    if len == 0 {
        block_part(alloc, at, text)
    } else {
        host_part(alloc, len, at, text)
    }
}

/// The parts of a text that begins a line.
fn parts_from(alloc: Global, start: Position, text: &[u8]) -> Result<List<Part>, ReadFault>
    requires { HasRoom start (length text.now) }
    ensures { Gives (parts_from (length text.now) true start text.now) result }
{
    let mut found = List::new(alloc);
    let mut fresh = true;
    let mut at = start;
    let mut rest = text;
    for _turn in 0..text.len() {
        if rest.is_empty() {
            return Ok(found);
        }
        let region = next_part(alloc, fresh, at, rest)?;
        push(&mut found, region.part)?;
        fresh = region.fresh;
        at = region.at;
        rest = region.rest;
    }
    Ok(found)
}

/// The earlier of a marker and of the fault of the parts; at one place the marker.
fn earlier(
    marker: Option<Fault>,
    parts: Result<List<Part>, ReadFault>,
) -> Result<List<Part>, ReadFault>
    ensures { IsEarlier marker parts result }
{
    let Some(marker) = marker else {
        return parts;
    };
    match parts {
        Err(ReadFault::Fault(fault)) if is_before(fault.place, marker.place) => {
            Err(ReadFault::Fault(fault))
        }
        Ok(_) | Err(ReadFault::Fault(_)) => Err(ReadFault::Fault(marker)),
        Err(reason) => Err(reason),
    }
}

/// The first byte of a file.
fn file_start(file: u64) -> Position
    ensures { result ≡ file_start file }
{
    Position {
        from: 0,
        place: Place {
            file,
            line: 1,
            col: 1,
        },
    }
}

/// The parts of the text of the file with this number: host text and blocks, in order. Joined they are the text. A block
/// reaches from a `%%{` that is first on its line behind blanks to its `}%%`, or from another such `%%` to the end of its
/// line (the guide's section 2.1). Its end is sought behind its comments, literals, sets, regular expressions, code and
/// texts of `access` and `variable`.
///
/// F2 comes at a literal, a set, a regular expression or a code that has no end in the file, or in the line of a block of
/// one line; at the word `access` or `variable` whose text has none; and at the `%%` of a block that alone has none. F19
/// comes at a line, and at what stands behind a `}%%`, that begins behind blanks as a printed data section does (this
/// profile). The first in text order is told.
pub fn split(alloc: Global, text: &[u8], file: u64) -> Result<List<Part>, ReadFault>
    requires { length text.now ≤ most_source_bytes }
    ensures answer { Gives (file_parts file text.now) result }
    ensures joined { IfOk result (λ parts. text_of parts ≡ text.now) }
{
    let start = file_start(file);
    let marker = marked_line(start, text);
    earlier(marker, parts_from(alloc, start, text))
}
