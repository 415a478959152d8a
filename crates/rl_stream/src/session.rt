// The one session: its pieces and its end, with the lines that they add.
ghost use Rattle.std.specs.Prelude.{◌≡◌, ◌<◌, ◌+◌, ◌*◌, ◌^◌, false, length, is_some, IfOk, OnOk, Some, None};
ghost use Rattle.rl_arrays.specs.TableMachine.{machine};
ghost use Rattle.rl_replay.specs.Lines.{end_line};
ghost use Rattle.rl_runner.specs.Feeds.{over_after};
ghost use Rattle.rl_sessions.specs.SessionsValue.{SessionValue, find, verdict_in};
ghost use Rattle.rl_stream.specs.Lines.{input_name};
ghost use Rattle.rl_stream.specs.Stands.{HasLive, TakesMore, TakesLast, Feeds, Finishes, Adds, new_stop, stop_text};

use crate::log::{Log, log_call};
use rl_replay::{push_end_line, push_stop_line};
use rl_run::{Answer, Call, Outcome, Verdict};
use rl_sessions::Sessions;
use rl_types::Memory;

// The name of the session.
pub fn session_name() -> &'static [u8]
    ensures { result.now ≡ input_name }
{
    b"input"
}

// Whether a run is over with what it came to.
fn is_over(outcome: &Outcome) -> bool
    ensures { result ≡ is_some (over_after outcome.now) }
{
    match outcome {
        Outcome::Wants | Outcome::Broke => false,
        Outcome::Ended | Outcome::Stopped(_) => true,
    }
}

// The position of the next character.
fn next_of(sessions: &Sessions<'_>) -> u64
    ensures { (x : SessionValue) → find input_name sessions.now.all ≡ Some x → result ≡ x.session.next }
{
    match sessions.next(session_name()) {
        Some(next) => next,
        None => 0,
    }
}

fn verdict_of(sessions: &Sessions<'_>) -> Verdict
    ensures { (x : SessionValue) → find input_name sessions.now.all ≡ Some x → result ≡ verdict_in sessions.now.tables x }
{
    match sessions.verdict(session_name()) {
        Some(verdict) => verdict,
        None => Verdict::Partial,
    }
}

// Runs the session over a piece; its calls are logged.
fn take_piece(
    log: &mut Log<'_>,
    sessions: &mut Sessions<'_>,
    was_over: bool,
    name: &[u8],
    piece: &[u8],
) -> Result<Outcome, Memory>
    requires named { name.now ≡ input_name }
    requires live { HasLive name.now sessions.old }
    requires room { (x : SessionValue) → find name.now sessions.old.all ≡ Some x → x.over ≡ None →
        (machine sessions.old.tables).width * x.base + length x.window + length piece.now < 2 ^ 63 }
    ensures room { IfOk result (λ _. log.new.is_full ≡ false) }
    ensures taken { IfOk result (λ outcome. log.new.is_full ≡ false → TakesMore was_over piece.now outcome log.old log.new sessions.old sessions.new) }
{
    let _ = was_over;
    let mut host = |call: Call| -> Answer { log_call(log, &call) };
    let taken = sessions.piece(name, piece, &mut host);
    if log.is_full {
        return Err(Memory);
    }
    match taken {
        Ok(outcome) => Ok(outcome),
        Err(_) => unreachable!(),
    }
}

// Runs the session to the end of its input; its calls are logged.
fn take_end(
    log: &mut Log<'_>,
    sessions: &mut Sessions<'_>,
    was_over: bool,
    name: &[u8],
) -> Result<Outcome, Memory>
    requires named { name.now ≡ input_name }
    requires live { HasLive name.now sessions.old }
    ensures room { IfOk result (λ _. log.new.is_full ≡ false) }
    ensures taken { IfOk result (λ outcome. log.new.is_full ≡ false → TakesLast was_over outcome log.old log.new sessions.old sessions.new) }
{
    let _ = was_over;
    let mut host = |call: Call| -> Answer { log_call(log, &call) };
    let taken = sessions.end(name, &mut host);
    if log.is_full {
        return Err(Memory);
    }
    match taken {
        Ok(outcome) => Ok(outcome),
        Err(_) => unreachable!(),
    }
}

// The stop line, where the run stopped.
fn push_stop_of(log: &mut Log<'_>, outcome: &Outcome, next: u64) -> Result<(), Memory>
    ensures { OnOk result (Adds log.old log.new (stop_text outcome.now next)) }
{
    match outcome {
        Outcome::Stopped(cause) => {
            push_stop_line(log.alloc, &mut log.text, session_name(), cause, next)
        }
        Outcome::Wants | Outcome::Broke | Outcome::Ended => Ok(()),
    }
}

// The same, where it was not told before.
fn push_stop(log: &mut Log<'_>, was_over: bool, outcome: &Outcome, next: u64) -> Result<(), Memory>
    ensures { OnOk result (Adds log.old log.new (new_stop was_over outcome.now next)) }
{
    if was_over {
        return Ok(());
    }
    push_stop_of(log, outcome, next)
}

fn push_end(log: &mut Log<'_>, verdict: Verdict, next: u64) -> Result<(), Memory>
    ensures { OnOk result (Adds log.old log.new (end_line input_name verdict next)) }
{
    push_end_line(log.alloc, &mut log.text, session_name(), verdict, next)
}

// Feeds a piece, and adds the lines of its calls and of its stop. It answers whether the session is over, which takes no
// more.
pub fn feed(
    log: &mut Log<'_>,
    sessions: &mut Sessions<'_>,
    was_over: bool,
    piece: &[u8],
) -> Result<bool, Memory>
    requires live { HasLive input_name sessions.old }
    requires room { (x : SessionValue) → find input_name sessions.old.all ≡ Some x → x.over ≡ None →
        (machine sessions.old.tables).width * x.base + length x.window + length piece.now < 2 ^ 63 }
    ensures { IfOk result (λ over. Feeds was_over over piece.now log.old log.new sessions.old sessions.new) }
{
    let outcome = take_piece(log, sessions, was_over, session_name(), piece)?;
    let next = next_of(sessions);
    push_stop(log, was_over, &outcome, next)?;
    let over = is_over(&outcome);
    Ok(over)
}

// Ends the session, and adds the lines of its calls, of its stop and of its end.
pub fn finish(log: &mut Log<'_>, sessions: &mut Sessions<'_>, was_over: bool) -> Result<(), Memory>
    requires { HasLive input_name sessions.old }
    ensures { OnOk result (Finishes was_over log.old log.new sessions.old) }
{
    let outcome = take_end(log, sessions, was_over, session_name())?;
    let next = next_of(sessions);
    push_stop(log, was_over, &outcome, next)?;
    let verdict = verdict_of(sessions);
    push_end(log, verdict, next)?;
    Ok(())
}
