// The lines of the calls of the one session.
ghost use Rattle.std.specs.Prelude.{◌≡◌, false, IfOk};
ghost use Rattle.rl_stream.specs.Log.{LogsCall, Logs};

use crate::session::session_name;
use rl_log::Names;
use rl_replay::{answer_by_itself, push_call_line};
use rl_run::{Answer, Call};
use rl_types::Memory;
use std::alloc::Global;

#[derive(Drop)]
pub struct Log<'a> {
    pub alloc: Global,
    pub names: Names<'a>,
    // The lines that are not written yet.
    pub text: Vec<u8>,
    // Memory was wanting for a line.
    pub is_full: bool,
}

// Answers a call by itself, and adds its line.
fn answer_and_log(log: &mut Log<'_>, call: &Call) -> Result<Answer, Memory>
    requires { log.old.is_full ≡ false }
    ensures { IfOk result (λ answer. Logs log.old log.new call.now answer) }
{
    let answer = answer_by_itself(&log.names, call);
    push_call_line(
        log.alloc,
        &mut log.text,
        &log.names,
        session_name(),
        call,
        &answer,
    )?;
    Ok(answer)
}

// Answers and logs a call. Where memory is wanting, the log is full from then on, and the session is to stop.
pub fn log_call(log: &mut Log<'_>, call: &Call) -> Answer
    ensures { LogsCall log.old call.now result log.new }
{
    if log.is_full {
        return Answer::Stop;
    }
    match answer_and_log(log, call) {
        Ok(answer) => answer,
        Err(_) => {
            log.is_full = true;
            Answer::Stop
        }
    }
}
