// Calls on one session that log what it calls.
ghost use Rattle.std.specs.Prelude.{◌≡◌, ◌<◌, ◌+◌, ◌*◌, ◌^◌, false, length, IfOk, Some};
ghost use Rattle.rl_arrays.specs.TableMachine.{machine};
ghost use Rattle.rl_sessions.specs.SessionsValue.{SessionValue, find};
ghost use Rattle.rl_sessions.specs.Runs.{TakesPiece, TakesEnd};
ghost use Rattle.rl_playback.specs.Deeds.{HasLive};
ghost use Rattle.rl_playback.specs.Log.{LogsCall};

use crate::log::{Log, log_call};
use rl_run::{Answer, Call, Outcome};
use rl_sessions::Sessions;
use rl_types::Memory;

// Runs a session that was not ended over a piece.
pub fn take_piece(
    log: &mut Log<'_>,
    sessions: &mut Sessions<'_>,
    name: &[u8],
    piece: &[u8],
) -> Result<Outcome, Memory>
    requires live { HasLive name.now sessions.old }
    requires room { (x : SessionValue) → find name.now sessions.old.all ≡ Some x →
        (machine sessions.old.tables).width * x.base + length x.window + length piece.now < 2 ^ 63 }
    ensures room { IfOk result (λ _. log.new.is_full ≡ false) }
    ensures taken { IfOk result (λ outcome. TakesPiece LogsCall log.old log.new name.now sessions.old sessions.new piece.now outcome) }
{
    let mut host = |call: Call| -> Answer { log_call(log, &call) };
    let taken = sessions.piece(name, piece, &mut host);
    if log.is_full {
        return Err(Memory);
    }
    match taken {
        Ok(outcome) => Ok(outcome),
        Err(_) => unreachable!(),
    }
}

// Runs a session that was not ended to the end of its input.
pub fn take_end(
    log: &mut Log<'_>,
    sessions: &mut Sessions<'_>,
    name: &[u8],
) -> Result<Outcome, Memory>
    requires { HasLive name.now sessions.old }
    ensures room { IfOk result (λ _. log.new.is_full ≡ false) }
    ensures taken { IfOk result (λ outcome. TakesEnd LogsCall log.old log.new name.now sessions.old sessions.new outcome) }
{
    let mut host = |call: Call| -> Answer { log_call(log, &call) };
    let taken = sessions.end(name, &mut host);
    if log.is_full {
        return Err(Memory);
    }
    match taken {
        Ok(outcome) => Ok(outcome),
        Err(_) => unreachable!(),
    }
}
