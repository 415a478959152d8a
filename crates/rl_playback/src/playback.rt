// The text of a whole script.
ghost use Rattle.std.specs.Prelude.{◌≡◌, ◌<◌, ◌+◌, ◌++◌, ◌^◌, [], IfOk, OnOk, None, length, take, slice_get};
ghost use Rattle.rl_arrays.specs.TableMachine.{machine};
ghost use Rattle.rl_replay.specs.Sessions.{fed, first_fault};
ghost use Rattle.rl_replay.specs.Written.{written};
ghost use Rattle.rl_script.specs.TableNames.{names_in};
ghost use Rattle.rl_playback.specs.Deeds.{left_at, left_texts};
ghost use Rattle.rl_playback.specs.Stands.{Stands};

use crate::books::books_of;
use crate::deeds::{feed, finish, open};
use crate::log::Log;
use rl_log::Names;
use rl_replay::{Event, Line, Script, push_left_line};
use rl_run::Settings;
use rl_sessions::Sessions;
use rl_tables::Tables;
use rl_types::Memory;
use std::alloc::Global;

// Does what one line says.
fn play_line<'a>(
    log: &mut Log<'a>,
    sessions: &mut Sessions<'a>,
    tables: &'a Tables,
    settings: Settings,
    lines: &'a [Line],
    place: usize,
) -> Result<(), Memory>
    requires place { place < length lines.now }
    requires stands { Stands settings lines.now (take place lines.now) tables.now log.old sessions.old }
    ensures { OnOk result (Stands settings lines.now (take (place + 1) lines.now) tables.now log.new sessions.new) }
{
    match &lines[place].event {
        Event::Open(name, entry) => open(log.alloc, tables, sessions, name.bytes(), entry),
        Event::Piece(name, piece) => {
            log.session = name.bytes();
            feed(log, sessions, name.bytes(), piece.as_slice())
        }
        Event::End(name) => {
            log.session = name.bytes();
            finish(log, sessions, name.bytes())
        }
        Event::Pick(..) | Event::Say(..) => Ok(()),
    }
}

// Does what the lines say, one after another.
fn play<'a>(
    log: &mut Log<'a>,
    sessions: &mut Sessions<'a>,
    tables: &'a Tables,
    settings: Settings,
    lines: &'a [Line],
) -> Result<(), Memory>
    requires { Stands settings lines.now [] tables.now log.old sessions.old }
    ensures { OnOk result (Stands settings lines.now lines.now tables.now log.new sessions.new) }
{
    for place in 0..lines.len() {
        play_line(log, sessions, tables, settings, lines, place)?;
    }
    Ok(())
}

// The left line of the session at a place, unless it was ended.
fn push_left(log: &mut Log<'_>, sessions: &Sessions<'_>, place: usize) -> Result<(), Memory>
    ensures { OnOk result (log.new.text.items ≡ log.old.text.items ++ left_at sessions.now.tables (slice_get sessions.now.all place)) }
{
    let Some(view) = sessions.session(place) else {
        return Ok(());
    };
    if view.is_closed {
        return Ok(());
    }
    push_left_line(log.alloc, &mut log.text, view.name, view.verdict, view.next)
}

// The left lines of the sessions that were not ended, in order of opening.
fn push_all_left(log: &mut Log<'_>, sessions: &Sessions<'_>) -> Result<(), Memory>
    ensures { OnOk result (log.new.text.items ≡ log.old.text.items ++ left_texts sessions.now.tables sessions.now.all) }
{
    for place in 0..sessions.len() {
        push_left(log, sessions, place)?;
    }
    Ok(())
}

/// All that a replay of an admitted script over these tables writes: the lines of its calls, stops and ends in the order
/// in which the script's lines make them, and then a left line for each session that was not ended, in order of opening.
/// All sessions have these settings. A call is answered by the session's line for it, or else as `answer_by_itself` says (this profile).
/// `Memory` where memory is wanting, or where a name was called more often in a session than 64 bits can count; no line of
/// an admitted script is refused.
pub fn lines_of_script<'a>(
    alloc: Global,
    tables: &'a Tables,
    settings: Settings,
    script: &'a Script,
) -> Result<Vec<u8>, Memory>
    requires admitted { first_fault (names_in tables.now) script.now.lines ≡ None }
    requires small { length (fed script.now.lines) < 2 ^ 63 }
    ensures { IfOk result (λ v. v.items ≡ written (names_in tables.now) (machine tables.now) settings script.now.lines) }
{
    prove!(!tables.arrays().entry_names.is_empty());
    let lines = script.lines.as_slice();
    let books = books_of(alloc, lines)?;
    let mut log = Log {
        alloc,
        names: Names { tables },
        session: b"",
        books,
        text: Vec::new(alloc),
        is_full: false,
    };
    let mut sessions = Sessions::new(alloc, tables, settings);
    play(&mut log, &mut sessions, tables, settings, lines)?;
    push_all_left(&mut log, &sessions)?;
    Ok(log.text)
}
