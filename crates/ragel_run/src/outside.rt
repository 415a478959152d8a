// The script of a replay, and its output.
ghost use Rattle.std.specs.Prelude.{◌≡◌, ◌≤◌, ◌<◌, ◌^◌, IfOk, IfErr, Ok, length};
ghost use Rattle.rl_replay.specs.Sessions.{fed, script_of};
ghost use Rattle.rl_script.specs.TableNames.{names_in};
ghost use Rattle.ragel_run.specs.Reads.{IsNoScript, ReadsScript, WritesLines};

use crate::files::file_name;
use rl_ends::Refusal;
use rl_io::{Sink, SinkFault, Store, StoreFault};
use rl_replay::{Script, ScriptFault};
use rl_script::{admit, read_script};
use rl_tables::Tables;
use std::alloc::Global;

// The script that a text is, where tables have their names.
fn script_for(alloc: Global, text: &[u8], tables: &Tables) -> Result<Script, ScriptFault>
    ensures found { IfOk result (λ s. script_of (names_in tables.now) text.now ≡ Ok s.lines) }
    ensures small { IfOk result (λ s. length (fed s.lines) ≤ length text.now) }
    ensures fault { IfErr result (IsNoScript (names_in tables.now) text.now) }
{
    let script = match read_script(alloc, text) {
        Ok(script) => script,
        Err(fault) => return Err(fault),
    };
    match admit(alloc, &script, tables) {
        Ok(()) => Ok(script),
        Err(fault) => Err(fault),
    }
}

// The script under a name.
pub fn script_under<S: Store>(
    alloc: Global,
    name: &str,
    tables: &Tables,
    store: &mut S,
) -> Result<Script, Refusal>
    ensures reads { ReadsScript (S.held store.old) name.now (names_in tables.now) (S.faults store.old) (S.faults store.new) result }
    ensures small { IfOk result (λ s. length (fed s.lines) < 2 ^ 63) }
    ensures same { S.held store.new ≡ S.held store.old }
{
    let Ok(file) = file_name(alloc, name) else {
        return Err(Refusal::Memory);
    };
    let text = match store.read(name) {
        Ok(text) => text,
        Err(StoreFault::Missing) => return Err(Refusal::Missing(file)),
        Err(StoreFault::Failed) => return Err(Refusal::StoreFailed(file)),
        Err(StoreFault::Memory) => return Err(Refusal::Memory),
    };
    match script_for(alloc, &text, tables) {
        Ok(script) => Ok(script),
        Err(fault) => Err(Refusal::Script(fault, file)),
    }
}

// The lines go out in one piece.
pub fn write_lines<O: Sink>(lines: &[u8], out: &mut O) -> Result<(), Refusal>
    ensures { WritesLines lines.now (O.written out.old) (O.written out.new) (O.faults out.old) (O.faults out.new) result }
{
    match out.write_all(lines) {
        Ok(()) => Ok(()),
        Err(SinkFault::Failed) => Err(Refusal::OutputFailed),
        Err(SinkFault::Memory) => Err(Refusal::Memory),
    }
}
