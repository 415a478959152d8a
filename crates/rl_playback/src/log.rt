// The log of a replay: the lines so far, and the answers and counts of its calls.
ghost use Rattle.std.specs.Prelude.{◌≡◌, ◌++◌, ℕ, false, IfOk, OnOk, unwrap_or};
ghost use Rattle.rl_arrays.specs.TableMachine.{machine};
ghost use Rattle.rl_run.specs.Picks as picks;
ghost use Rattle.rl_replay.specs.Host as host;
ghost use Rattle.rl_replay.specs.Host.{own_answer};
ghost use Rattle.rl_playback.specs.Log.{AnswersCall, Logs, LogsCall};

use crate::books::{Books, next_answer};
use rl_log::{Names, name_called};
use rl_replay::{answer_by_itself, push_call_line};
use rl_run::{Answer, Call, CallKind};
use rl_types::Memory;
use std::alloc::Global;

#[derive(Drop)]
pub struct Log<'a> {
    pub alloc: Global,
    pub names: Names<'a>,
    // The session whose calls are made.
    pub session: &'a [u8],
    pub books: Books<'a>,
    pub text: Vec<u8>,
    pub is_full: bool,
}

// Whether a condition is called.
fn is_ask(kind: CallKind) -> bool
    ensures { result ≡ host.is_ask kind }
{
    matches!(kind, CallKind::Ask)
}

// Whether a call may have picks.
fn takes_picks(kind: CallKind) -> bool
    ensures { result ≡ picks.takes_picks kind }
{
    matches!(
        kind,
        CallKind::Do | CallKind::Error | CallKind::Token | CallKind::Eof
    )
}

// Counts a call, and gives the answer of the session's line for it.
fn given_answer(log: &mut Log<'_>, call: &Call) -> Result<Option<Answer>, Memory>
    ensures answer { IfOk result (λ answer. AnswersCall log.old log.new call.now (unwrap_or answer (own_answer (machine log.old.names.tables.now) call.now))) }
    ensures text { log.new.text ≡ log.old.text }
    ensures full { log.new.is_full ≡ log.old.is_full }
{
    let name = name_called(log.names.tables, call);
    if is_ask(call.kind) {
        return next_answer(&mut log.books.asks, log.session, name);
    }
    if takes_picks(call.kind) {
        return next_answer(&mut log.books.picks, log.session, name);
    }
    Ok(None)
}

// The answer to a call: that of the session's line for it, or else the one that is given by itself.
fn answer_to(log: &mut Log<'_>, call: &Call) -> Result<Answer, Memory>
    ensures answer { IfOk result (λ answer. AnswersCall log.old log.new call.now answer) }
    ensures text { log.new.text ≡ log.old.text }
    ensures full { log.new.is_full ≡ log.old.is_full }
{
    match given_answer(log, call)? {
        Some(answer) => Ok(answer),
        None => Ok(answer_by_itself(&log.names, call)),
    }
}

// Answers a call, and adds its line.
fn answer_and_log(log: &mut Log<'_>, call: &Call) -> Result<Answer, Memory>
    requires { log.old.is_full ≡ false }
    ensures { IfOk result (λ answer. Logs log.old log.new call.now answer) }
{
    let answer = answer_to(log, call)?;
    push_call_line(
        log.alloc,
        &mut log.text,
        &log.names,
        log.session,
        call,
        &answer,
    )?;
    Ok(answer)
}

// Answers and logs a call. Where memory is wanting, the log is full from then on, and the session is to stop.
pub fn log_call(log: &mut Log<'_>, call: &Call) -> Answer
    ensures { LogsCall log.old call.now result log.new }
{
    if log.is_full {
        return Answer::Stop;
    }
    match answer_and_log(log, call) {
        Ok(answer) => answer,
        Err(_) => {
            log.is_full = true;
            Answer::Stop
        }
    }
}
