// A made input, fed piece by piece.
ghost use Rattle.std.specs.Prelude.{◌≡◌, ◌<◌, ◌≤◌, ◌+◌, ◌^◌, [], true, false, length, take, IfOk};
ghost use Rattle.rl_playback.specs.Defaults.{default_settings};
ghost use Rattle.rl_made.specs.Made.{piece_length, pieces_of};
ghost use Rattle.rl_made.specs.Stands.{Stands};

use crate::tally::{Tally, answer};
use rl_run::{Answer, Call};
use rl_sessions::Sessions;

// Runs the session over the piece of the input between two places.
fn take_piece(
    tally: &mut Tally<'_>,
    sessions: &mut Sessions<'_>,
    name: &[u8],
    input: &[u8],
    from: usize,
    to: usize,
)
    requires stands { Stands tally.old.names.tables.now default_settings name.now false (take from input.now) tally.old sessions.old }
    requires order { from ≤ to }
    requires within { to ≤ length input.now }
    requires small { length input.now < 2 ^ 63 }
    ensures tables { tally.new.names.tables.now ≡ tally.old.names.tables.now }
    ensures stands { Stands tally.old.names.tables.now default_settings name.now false (take to input.now) tally.new sessions.new }
{
    let mut host = |call: Call| -> Answer { answer(tally, &call) };
    let taken = sessions.piece(name, &input[from..to], &mut host);
    match taken {
        Ok(_outcome) => {}
        Err(_) => unreachable!(),
    }
}

// The place where a piece ends that begins at a place.
fn piece_end(from: usize, pieces: u64, len: usize) -> usize
    requires begins { from < len }
    requires small { len < 2 ^ 63 }
    ensures within { result ≤ len }
    ensures some { from < result }
    ensures whole { result < len → result ≡ from + piece_length pieces }
    ensures last { result ≤ from + piece_length pieces }
{
    let end = from + 1 + (pieces % 7) as usize;
    if end < len { end } else { len }
}

// Runs the session over the input in pieces, and counts them.
pub fn take_pieces(
    tally: &mut Tally<'_>,
    sessions: &mut Sessions<'_>,
    name: &[u8],
    input: &[u8],
) -> u64
    requires stands { Stands tally.old.names.tables.now default_settings name.now false [] tally.old sessions.old }
    requires small { length input.now < 2 ^ 63 }
    ensures tables { tally.new.names.tables.now ≡ tally.old.names.tables.now }
    ensures stands { Stands tally.old.names.tables.now default_settings name.now false input.now tally.new sessions.new }
    ensures count { result ≡ length (pieces_of input.now) }
{
    let mut from = 0;
    let mut pieces = 0;
    'pieces: while from < input.len() {
        let to = piece_end(from, pieces, input.len());
        take_piece(tally, sessions, name, input, from, to);
        from = to;
        pieces += 1;
    }
    pieces
}

// Runs the session to the end of its input.
pub fn take_end(tally: &mut Tally<'_>, sessions: &mut Sessions<'_>, name: &[u8], input: &[u8])
    requires stands { Stands tally.old.names.tables.now default_settings name.now false input.now tally.old sessions.old }
    requires small { length input.now < 2 ^ 63 }
    ensures tables { tally.new.names.tables.now ≡ tally.old.names.tables.now }
    ensures stands { Stands tally.old.names.tables.now default_settings name.now true input.now tally.new sessions.new }
{
    let mut host = |call: Call| -> Answer { answer(tally, &call) };
    let ended = sessions.end(name, &mut host);
    match ended {
        Ok(_outcome) => {}
        Err(_) => unreachable!(),
    }
}
