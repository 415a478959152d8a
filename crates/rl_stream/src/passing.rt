// One block: it is read, fed, and its lines are written.
ghost use Rattle.std.specs.Prelude.{◌≡◌, ◌≢◌, ◌<◌, ◌≤◌, ◌+◌, ◌-◌, ◌*◌, ◌^◌, [], length, Err, IfOk, IfErr, OnOk, IsSome, Some, None};
ghost use Rattle.rl_types.specs.Limits.{most_input_bytes};
ghost use Rattle.rl_arrays.specs.TableMachine.{machine};
ghost use Rattle.rl_io.specs.Outside.{HasCause, Appends, AppendsPrefix};
ghost use Rattle.rl_blocks.specs.Blocks.{TakesBlock};
ghost use Rattle.rl_sessions.specs.SessionsValue.{SessionValue, find};
ghost use Rattle.rl_stream.specs.Lines.{input_name};
ghost use Rattle.rl_stream.specs.Log.{tables_of};
ghost use Rattle.rl_stream.specs.Reading.{Passes, Breaks, Stops};
ghost use Rattle.rl_stream.specs.Stands.{HasLive};

use crate::StreamFault;
use crate::log::Log;
use crate::session::feed;
use rl_blocks::{InputFault, next_block};
use rl_io::{Sink, SinkFault, Source};
use rl_sessions::Sessions;

// Reads the next block.
pub fn read_block<I: Source>(
    input: &mut I,
    block: &mut [u8],
    count: u64,
) -> Result<usize, StreamFault>
    requires room { 0 < length block.old }
    requires small { count ≤ most_input_bytes }
    ensures bytes { IfOk result (λ n. TakesBlock (I.left input.old) (I.left input.new) n block.new) }
    ensures bound { IfOk result (λ n. n ≤ length block.old) }
    ensures small { IfOk result (λ n. count + n ≤ most_input_bytes) }
    ensures stops { IfErr result (λ fault. Stops (I.left input.old) (I.left input.new) (most_input_bytes - count) fault) }
    ensures told { IsSome (I.left input.old) → IsSome (I.left input.new) }
    ensures cause { HasCause (I.faults input.old) (I.faults input.new) (result ≡ Err StreamFault.InputFailed) }
    ensures size { length block.new ≡ length block.old }
{
    match next_block(input, block, count) {
        Ok(more) => Ok(more),
        Err(InputFault::Failed) => Err(StreamFault::InputFailed),
        Err(InputFault::TooLong) => Err(StreamFault::TooLong),
    }
}

// Writes the lines that stand in the log, and forgets them.
pub fn write_out<O: Sink>(log: &mut Log<'_>, out: &mut O) -> Result<(), StreamFault>
    ensures wrote { OnOk result (Appends (O.written out.old) (O.written out.new) log.old.text.items) }
    ensures empty { OnOk result (log.new.text.items ≡ []) }
    ensures tables { tables_of log.new ≡ tables_of log.old }
    ensures front { IfErr result (λ fault. fault ≡ StreamFault.OutputFailed → AppendsPrefix (O.written out.old) (O.written out.new) log.old.text.items) }
    ensures kept { IfErr result (λ fault. fault ≢ StreamFault.OutputFailed → O.written out.new ≡ O.written out.old) }
    ensures faults { IfErr result (λ fault. (fault ≢ StreamFault.InputFailed) × (fault ≢ StreamFault.TooLong)) }
    ensures told { IsSome (O.written out.old) → IsSome (O.written out.new) }
    ensures cause { HasCause (O.faults out.old) (O.faults out.new) (result ≡ Err StreamFault.OutputFailed) }
{
    match out.write_all(log.text.as_slice()) {
        Ok(()) => {
            log.text.clear();
            Ok(())
        }
        Err(SinkFault::Failed) => Err(StreamFault::OutputFailed),
        Err(SinkFault::Memory) => Err(StreamFault::Memory),
    }
}

// Feeds a piece, and writes its lines. It answers whether the session is over.
pub fn pass_piece<O: Sink>(
    log: &mut Log<'_>,
    sessions: &mut Sessions<'_>,
    was_over: bool,
    piece: &[u8],
    out: &mut O,
) -> Result<bool, StreamFault>
    requires live { HasLive input_name sessions.old }
    requires room { (x : SessionValue) → find input_name sessions.old.all ≡ Some x → x.over ≡ None →
        (machine sessions.old.tables).width * x.base + length x.window + length piece.now < 2 ^ 63 }
    ensures passes { IfOk result (λ over. Passes was_over over piece.now log.old log.new sessions.old sessions.new (O.written out.old) (O.written out.new)) }
    ensures breaks { IfErr result (λ fault. Breaks was_over piece.now log.old sessions.old (O.written out.old) (O.written out.new) fault) }
    ensures told { IsSome (O.written out.old) → IsSome (O.written out.new) }
    ensures cause { HasCause (O.faults out.old) (O.faults out.new) (result ≡ Err StreamFault.OutputFailed) }
{
    let Ok(over) = feed(log, sessions, was_over, piece) else {
        return Err(StreamFault::Memory);
    };
    match write_out(log, out) {
        Ok(()) => Ok(over),
        Err(fault) => Err(fault),
    }
}
