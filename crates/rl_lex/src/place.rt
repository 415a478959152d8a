// Positions behind a text.
ghost use Rattle.std.specs.Prelude.{◌≡◌, ◌+◌, ◌<◌, ◌≤◌, ◌^◌, length};
ghost use Rattle.rl_lexical.specs.Places.{place_behind, position_behind, is_before};
ghost use Rattle.rl_lex.specs.Room.{HasRoom};

use rl_lexical::Position;
use rl_types::Place;

/// The place behind a byte.
fn place_behind(place: Place, b: u8) -> Place
    requires lines { place.line + 1 < 2 ^ 32 }
    requires columns { place.col + 1 < 2 ^ 32 }
    ensures value { result ≡ place_behind place b }
    ensures line { result.line ≤ place.line + 1 }
    ensures column { result.col ≤ place.col + 1 }
{
    if b == b'\n' {
        Place {
            file: place.file,
            line: place.line + 1,
            col: 1,
        }
    } else {
        Place {
            file: place.file,
            line: place.line,
            col: place.col + 1,
        }
    }
}

/// The position behind a text.
pub fn position_behind(at: Position, text: &[u8]) -> Position
    requires { HasRoom at (length text.now) }
    ensures value { result ≡ position_behind at text.now }
    ensures offset { result.from ≡ at.from + length text.now }
    ensures line { result.place.line ≤ at.place.line + length text.now }
    ensures column { result.place.col ≤ at.place.col + length text.now }
{
    let mut position = at;
    for b in text {
        position = Position {
            from: position.from + 1,
            place: place_behind(position.place, *b),
        };
    }
    position
}

/// Whether a place of a file comes before another.
pub fn is_before(a: Place, b: Place) -> bool
    ensures { result ≡ is_before a b }
{
    a.line < b.line || (a.line == b.line && a.col < b.col)
}
