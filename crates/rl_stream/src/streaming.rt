// An input, block by block, to its end.
ghost use Rattle.std.specs.Prelude.{◌≡◌, ◌≢◌, false, [], Err, IfErr, IfOk, OnOk, OnErr, IsSome};
ghost use Rattle.rl_arrays.specs.TableMachine.{machine};
ghost use Rattle.rl_arrays.specs.Valid.{Valid};
ghost use Rattle.rl_io.specs.Outside.{HasCause};
ghost use Rattle.rl_tables.specs.Steps.{IsEntryNumber};
ghost use Rattle.rl_stream.specs.Lines.{input_name};
ghost use Rattle.rl_stream.specs.Log.{tables_of};
ghost use Rattle.rl_stream.specs.Reading.{AllRead, Leaves, Closes, ClosesNot};
ghost use Rattle.rl_stream.specs.Stands.{HasLive, Stands};
ghost use Rattle.rl_stream.specs.Streams.{Streams, LeavesFront, LeavesEvents, LeavesOpen, HasTooMany};

use crate::StreamFault;
use crate::log::Log;
use crate::passing::{pass_piece, read_block, write_out};
use crate::session::{finish, session_name};
use rl_io::{Sink, Source};
use rl_log::Names;
use rl_run::Settings;
use rl_sessions::Sessions;
use rl_tables::Tables;
use rl_types::EntryId;
use std::alloc::Global;

// Feeds all blocks of the input, and writes the lines of each. It answers whether the session is over.
fn feed_all<I: Source, O: Sink>(
    log: &mut Log<'_>,
    sessions: &mut Sessions<'_>,
    settings: Settings,
    entry: EntryId,
    input: &mut I,
    out: &mut O,
) -> Result<bool, StreamFault>
    requires stands { Stands (tables_of log.old) settings entry.0 [] [] false log.old sessions.old }
    requires empty { log.old.text.items ≡ [] }
    ensures read { IfOk result (λ over. AllRead (tables_of log.old) settings entry.0 (I.left input.old) (I.left input.new) (O.written out.old) (O.written out.new) over log.new sessions.new) }
    ensures leaves { IfErr result (λ fault. Leaves (machine (tables_of log.old)) settings entry.0 (I.left input.old) (I.left input.new) (O.written out.old) (O.written out.new) fault) }
    ensures told_input { IsSome (I.left input.old) → IsSome (I.left input.new) }
    ensures told { IsSome (O.written out.old) → IsSome (O.written out.new) }
    ensures input_quiet { OnOk result (I.faults input.new ≡ I.faults input.old) }
    ensures output_quiet { OnOk result (O.faults out.new ≡ O.faults out.old) }
    ensures input_cause { HasCause (I.faults input.old) (I.faults input.new) (result ≡ Err StreamFault.InputFailed) }
    ensures output_cause { HasCause (O.faults out.old) (O.faults out.new) (result ≡ Err StreamFault.OutputFailed) }
{
    let _ = settings;
    let _ = entry;
    let mut block = [0_u8; 4096];
    let mut count = 0;
    let mut is_over = false;
    'blocks: loop {
        let more = match read_block(input, &mut block, count) {
            Ok(more) => more,
            Err(fault) => return Err(fault),
        };
        if more == 0 {
            return Ok(is_over);
        }
        is_over = match pass_piece(log, sessions, is_over, &block[..more], out) {
            Ok(over) => over,
            Err(fault) => return Err(fault),
        };
        count += more as u64;
    }
}

// Ends the session, and writes the lines of that.
fn close<O: Sink>(
    log: &mut Log<'_>,
    sessions: &mut Sessions<'_>,
    was_over: bool,
    out: &mut O,
) -> Result<(), StreamFault>
    requires { HasLive input_name sessions.old }
    ensures closes { OnOk result (Closes was_over log.old sessions.old (O.written out.old) (O.written out.new)) }
    ensures not { IfErr result (λ fault. ClosesNot was_over log.old sessions.old (O.written out.old) (O.written out.new) fault) }
    ensures told { IsSome (O.written out.old) → IsSome (O.written out.new) }
    ensures cause { HasCause (O.faults out.old) (O.faults out.new) (result ≡ Err StreamFault.OutputFailed) }
{
    let Ok(()) = finish(log, sessions, was_over) else {
        return Err(StreamFault::Memory);
    };
    match write_out(log, out) {
        Ok(()) => Ok(()),
        Err(fault) => Err(fault),
    }
}

// Runs the session that was opened over the whole input.
fn run_all<I: Source, O: Sink>(
    log: &mut Log<'_>,
    sessions: &mut Sessions<'_>,
    settings: Settings,
    entry: EntryId,
    input: &mut I,
    out: &mut O,
) -> Result<(), StreamFault>
    requires stands { Stands (tables_of log.old) settings entry.0 [] [] false log.old sessions.old }
    requires empty { log.old.text.items ≡ [] }
    ensures streams { OnOk result (Streams (machine (tables_of log.old)) settings entry.0 (I.left input.old) (I.left input.new) (O.written out.old) (O.written out.new)) }
    ensures leaves { IfErr result (λ fault. Leaves (machine (tables_of log.old)) settings entry.0 (I.left input.old) (I.left input.new) (O.written out.old) (O.written out.new) fault) }
    ensures told_input { IsSome (I.left input.old) → IsSome (I.left input.new) }
    ensures told { IsSome (O.written out.old) → IsSome (O.written out.new) }
    ensures input_cause { HasCause (I.faults input.old) (I.faults input.new) (result ≡ Err StreamFault.InputFailed) }
    ensures output_cause { HasCause (O.faults out.old) (O.faults out.new) (result ≡ Err StreamFault.OutputFailed) }
{
    match feed_all(log, sessions, settings, entry, input, out) {
        Ok(is_over) => match close(log, sessions, is_over, out) {
            Ok(()) => Ok(()),
            Err(fault) => Err(fault),
        },
        Err(fault) => Err(fault),
    }
}

// The one session, opened at an entry.
fn opened<'a>(
    alloc: Global,
    tables: &'a Tables,
    settings: Settings,
    entry: EntryId,
    log: &Log<'_>,
) -> Result<Sessions<'a>, StreamFault>
    requires valid { Valid tables.now }
    requires exists { IsEntryNumber tables.now entry.0 }
    requires tables { tables_of log.now ≡ tables.now }
    requires empty { log.now.text.items ≡ [] }
    ensures stands { IfOk result (λ sessions. Stands tables.now settings entry.0 [] [] false log.now sessions) }
    ensures memory { IfErr result (λ fault. fault ≡ StreamFault.Memory) }
{
    let _ = log;
    let mut sessions = Sessions::new(alloc, tables, settings);
    match sessions.start(alloc, session_name(), entry) {
        Ok(()) => Ok(sessions),
        Err(_) => Err(StreamFault::Memory),
    }
}

/// Runs one session, which is named `input`, from an entry over all bytes of an input, and ends it. The input is read in
/// blocks of at most 4,096 bytes, and the lines of each go out before the next is read, so that memory holds no more
/// than the lines of one block. What is written does not depend on how the input is cut. A call is answered as
/// `answer_by_itself` says (this profile).
///
/// - `InputFailed` only where the source failed: the lines of the open session with all bytes that were read stand in
///   the output.
/// - `TooLong` exactly where more than 1,099,511,627,776 bytes were read.
/// - `OutputFailed` only where the sink failed: any front of the lines stands in the output.
/// - `Memory` where memory is wanting: the lines of whole blocks stand in the output.
pub fn stream<I: Source, O: Sink>(
    alloc: Global,
    tables: &Tables,
    settings: Settings,
    entry: EntryId,
    input: &mut I,
    out: &mut O,
) -> Result<(), StreamFault>
    requires valid { Valid tables.now }
    requires exists { IsEntryNumber tables.now entry.0 }
    ensures streams { OnOk result (Streams (machine tables.now) settings entry.0 (I.left input.old) (I.left input.new) (O.written out.old) (O.written out.new)) }
    ensures front { OnErr result (LeavesFront (machine tables.now) settings entry.0 (I.left input.old) (O.written out.old) (O.written out.new)) }
    ensures events { result ≢ Err StreamFault.OutputFailed → OnErr result (LeavesEvents (machine tables.now) settings entry.0 (I.left input.old) (O.written out.old) (O.written out.new)) }
    ensures input_failed { result ≡ Err StreamFault.InputFailed → LeavesOpen (machine tables.now) settings entry.0 (I.left input.old) (I.left input.new) (O.written out.old) (O.written out.new) }
    ensures too_long { result ≡ Err StreamFault.TooLong → HasTooMany (I.left input.old) }
    ensures told_input { IsSome (I.left input.old) → IsSome (I.left input.new) }
    ensures told { IsSome (O.written out.old) → IsSome (O.written out.new) }
    ensures input_cause { HasCause (I.faults input.old) (I.faults input.new) (result ≡ Err StreamFault.InputFailed) }
    ensures output_cause { HasCause (O.faults out.old) (O.faults out.new) (result ≡ Err StreamFault.OutputFailed) }
{
    prove!(!tables.arrays().entry_names.is_empty());
    let mut log = Log {
        alloc,
        names: Names { tables },
        text: Vec::new(alloc),
        is_full: false,
    };
    match opened(alloc, tables, settings, entry, &log) {
        Ok(mut sessions) => run_all(&mut log, &mut sessions, settings, entry, input, out),
        Err(fault) => Err(fault),
    }
}
