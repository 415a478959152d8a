// Lines that begin blocks, and lines that are marked.
ghost use Rattle.std.specs.Prelude.{◌≡◌, ◌+◌, ◌<◌, ◌≤◌, ◌^◌, [], ◌∷◌, true, length, Option, map};
ghost use Rattle.rl_lexical.specs.Parts.{blanks_len, behind_blanks, begins_block, shape_of, mark_at, is_marked, marked, marked_line, host_len};
ghost use Rattle.rl_lexical.specs.Places.{position_behind};
ghost use Rattle.rl_lex.specs.Room.{HasRoom};

use crate::bytes::line_blanks_len;
use crate::place::position_behind;
use rl_lexical::{Position, Shape};
use rl_types::{Fault, FaultKind};

/// What is left behind the blanks that a text begins with.
fn behind_blanks(text: &[u8]) -> &[u8]
    ensures { result.now ≡ behind_blanks text.now }
{
    let (_, rest) = text.split_at(line_blanks_len(text));
    rest
}

/// Whether a line begins a block.
fn begins_block(line: &[u8]) -> bool
    ensures { result ≡ begins_block line.now }
{
    behind_blanks(line).starts_with(b"%%".as_slice())
}

/// The shape of the block that a line begins.
pub fn shape_of(line: &[u8]) -> Shape
    ensures { result ≡ shape_of line.now }
{
    if behind_blanks(line).starts_with(b"%%{".as_slice()) {
        Shape::Braced
    } else {
        Shape::Line
    }
}

/// The position behind the blanks that a text begins with.
pub fn mark_at(at: Position, text: &[u8]) -> Position
    requires { HasRoom at (length text.now) }
    ensures { result ≡ mark_at at text.now }
{
    let (blanks, _) = text.split_at(line_blanks_len(text));
    position_behind(at, blanks)
}

/// Whether the first bytes behind blanks are those of a printed data section.
pub fn is_marked(text: &[u8]) -> bool
    ensures { result ≡ is_marked text.now }
{
    behind_blanks(text).starts_with(b"/* rl-data ".as_slice())
}

/// The fault of a marker.
pub fn marked(at: Position) -> Fault
    ensures { result ≡ marked at }
{
    Fault {
        kind: FaultKind::F19,
        place: at.place,
    }
}

/// How many bytes stand before the first line that begins a block.
pub fn host_len(fresh: bool, text: &[u8]) -> usize
    ensures value { result ≡ host_len fresh text.now }
    ensures bound { result ≤ length text.now }
{
    let mut n = 0;
    let mut is_line = fresh;
    let mut rest = text;
    while let [b, behind @ ..] = rest {
        if is_line && begins_block(rest) {
            return n;
        }
        is_line = *b == b'\n';
        rest = behind;
        n += 1;
    }
    n
}

/// The first line that is marked, in a text that begins a line.
pub fn marked_line(start: Position, text: &[u8]) -> Option<Fault>
    requires { HasRoom start (length text.now) }
    ensures { result ≡ marked_line true start text.now }
{
    let mut at = start;
    let mut is_line = true;
    let mut rest = text;
    while let [b, behind @ ..] = rest {
        if is_line && is_marked(rest) {
            return Some(marked(mark_at(at, rest)));
        }
        is_line = *b == b'\n';
        at = position_behind(at, &[*b]);
        rest = behind;
    }
    None
}
