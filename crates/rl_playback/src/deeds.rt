// What the lines of a script do.
ghost use Rattle.std.specs.Prelude.{◌≡◌, ◌≢◌, ◌++◌, [], None, true, false, if◌then◌else◌, OnOk, unwrap_or};
ghost use Rattle.rl_arrays.specs.Valid.{Valid};
ghost use Rattle.rl_tables.specs.Steps.{IsEntryNumber};
ghost use Rattle.rl_replay.specs.Lines.{end_line};
ghost use Rattle.rl_replay.specs.Sessions.{entry_or_start};
ghost use Rattle.rl_script.specs.TableNames.{names_in};
ghost use Rattle.rl_sessions.specs.SessionsValue.{refusal};
ghost use Rattle.rl_playback.specs.Log.{stop_text};
ghost use Rattle.rl_playback.specs.Deeds as spec;
ghost use Rattle.rl_playback.specs.Deeds.{HasStopped, HasNotStopped, HasRoom, HasLive, Adds, Opens, Feeds, Finishes};

use crate::log::Log;
use crate::takes::{take_end, take_piece};
use rl_replay::{push_end_line, push_stop_line};
use rl_run::{Outcome, Verdict};
use rl_sessions::{SessionFault, Sessions};
use rl_tables::Tables;
use rl_types::{EntryId, Memory, Name};
use std::alloc::Global;

// The entry at which a session is opened.
fn entry_for(tables: &Tables, entry: &Option<Name>) -> EntryId
    requires valid { Valid tables.now }
    requires exists { entry_or_start (names_in tables.now) entry.now ≢ 0 }
    ensures value { result.0 ≡ entry_or_start (names_in tables.now) entry.now }
    ensures exists { IsEntryNumber tables.now result.0 }
{
    match entry {
        Some(name) => match tables.entry_named(name.bytes()) {
            Some(entry) => entry,
            None => unreachable!(),
        },
        None => tables.start_entry(),
    }
}

// Opens a session, which is new and not one too many, at an entry that is there.
pub fn open(
    alloc: Global,
    tables: &Tables,
    sessions: &mut Sessions<'_>,
    name: &[u8],
    entry: &Option<Name>,
) -> Result<(), Memory>
    requires tables { sessions.old.tables ≡ tables.now }
    requires valid { Valid tables.now }
    requires exists { entry_or_start (names_in tables.now) entry.now ≢ 0 }
    requires admitted { refusal name.now sessions.old.all ≡ None }
    ensures { OnOk result (Opens name.now (entry_or_start (names_in tables.now) entry.now) sessions.old sessions.new) }
{
    let entry = entry_for(tables, entry);
    match sessions.start(alloc, name, entry) {
        Ok(()) => Ok(()),
        Err(SessionFault::Memory) => Err(Memory),
        Err(_) => unreachable!(),
    }
}

// Whether a session has stopped.
fn has_stopped(sessions: &Sessions<'_>, name: &[u8]) -> bool
    ensures stopped { result ≡ true → HasStopped name.now sessions.now }
    ensures going { result ≡ false → HasNotStopped name.now sessions.now }
{
    match sessions.verdict(name) {
        Some(Verdict::Error) => true,
        Some(Verdict::Final | Verdict::Partial) | None => false,
    }
}

fn next_of(sessions: &Sessions<'_>, name: &[u8]) -> u64
    ensures { result ≡ spec.next_of name.now sessions.now }
{
    sessions.next(name).unwrap_or(0)
}

fn verdict_of(sessions: &Sessions<'_>, name: &[u8]) -> Verdict
    ensures { result ≡ spec.verdict_of name.now sessions.now }
{
    sessions.verdict(name).unwrap_or(Verdict::Partial)
}

// The stop line, where the run stopped.
fn push_stop(log: &mut Log<'_>, name: &[u8], outcome: &Outcome, next: u64) -> Result<(), Memory>
    ensures { OnOk result (Adds log.old log.new (stop_text name.now outcome.now next)) }
{
    match outcome {
        Outcome::Stopped(cause) => push_stop_line(log.alloc, &mut log.text, name, cause, next),
        Outcome::Wants | Outcome::Broke | Outcome::Ended => Ok(()),
    }
}

fn push_end(log: &mut Log<'_>, name: &[u8], verdict: Verdict, next: u64) -> Result<(), Memory>
    ensures { OnOk result (Adds log.old log.new (end_line name.now verdict next)) }
{
    push_end_line(log.alloc, &mut log.text, name, verdict, next)
}

// The stop line, where the run stopped and had not stopped before, and the end line.
fn push_ends(
    log: &mut Log<'_>,
    sessions: &Sessions<'_>,
    name: &[u8],
    was_stopped: bool,
    outcome: &Outcome,
) -> Result<(), Memory>
    ensures { OnOk result (Adds log.old log.new ((if was_stopped then [] else stop_text name.now outcome.now (spec.next_of name.now sessions.now))
        ++ end_line name.now (spec.verdict_of name.now sessions.now) (spec.next_of name.now sessions.now))) }
{
    let next = next_of(sessions, name);
    let verdict = verdict_of(sessions, name);
    if was_stopped {
        return push_end(log, name, verdict, next);
    }
    push_stop(log, name, outcome, next)?;
    push_end(log, name, verdict, next)
}

// Feeds a piece to a session, and adds the lines of its calls and of its stop.
pub fn feed(
    log: &mut Log<'_>,
    sessions: &mut Sessions<'_>,
    name: &[u8],
    piece: &[u8],
) -> Result<(), Memory>
    requires live { HasLive name.now sessions.old }
    requires room { HasRoom name.now piece.now sessions.old }
    ensures { OnOk result (Feeds name.now sessions.old sessions.new log.old log.new piece.now) }
{
    if has_stopped(sessions, name) {
        return Ok(());
    }
    let outcome = take_piece(log, sessions, name, piece)?;
    let next = next_of(sessions, name);
    push_stop(log, name, &outcome, next)
}

// Ends a session, and adds the lines of its calls, of its stop and of its end.
pub fn finish(log: &mut Log<'_>, sessions: &mut Sessions<'_>, name: &[u8]) -> Result<(), Memory>
    requires { HasLive name.now sessions.old }
    ensures { OnOk result (Finishes name.now sessions.old sessions.new log.old log.new) }
{
    let was_stopped = has_stopped(sessions, name);
    let outcome = take_end(log, sessions, name)?;
    push_ends(log, sessions, name, was_stopped, &outcome)
}
