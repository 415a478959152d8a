// A run over the standard input.
ghost use Rattle.std.specs.Prelude.{◌≡◌};
ghost use Rattle.rl_arrays.specs.Valid.{Valid};
ghost use Rattle.rl_playback.specs.Defaults as defaults;
ghost use Rattle.rl_stream.specs.Lines.{input_name};
ghost use Rattle.rl_tables.specs.Steps.{IsEntryNumber};
ghost use Rattle.ragel_run.specs.Ends.{EndsStreaming, outside as outside_of};
ghost use Rattle.ragel_run.specs.Reads.{RunsFrom, RunsOver, refusal_by_stream};
ghost use Rattle.ragel_run.specs.Streamed.{input_limit, input_of};

use crate::files::file_name;
use crate::tables::read_machine;
use rl_ends::Refusal;
use rl_io::{Sink, Source, Store};
use rl_replay::ScriptFault;
use rl_run::Settings;
use rl_stream::{StreamFault, stream};
use rl_tables::Tables;
use rl_types::{EntryId, Limit, LimitKind, Name, Place};
use std::alloc::Global;

// The settings of the run.
fn default_settings() -> Settings
    ensures { result ≡ defaults.default_settings }
{
    Settings {
        stack: 64,
        look: 8,
        token_max: 65536,
    }
}

// The limit of the input, which has no place.
fn too_long() -> Limit
    ensures { result ≡ input_limit }
{
    Limit {
        kind: LimitKind::L12,
        place: Place {
            file: 0,
            line: 1,
            col: 1,
        },
    }
}

// How the fault of a run is told, with the name of the input.
fn refusal_by(fault: StreamFault, file: Name) -> Refusal
    ensures { result ≡ refusal_by_stream fault file }
{
    match fault {
        StreamFault::InputFailed => Refusal::InputFailed,
        StreamFault::OutputFailed => Refusal::OutputFailed,
        StreamFault::TooLong => Refusal::Limit(too_long(), file),
        StreamFault::Memory => Refusal::Memory,
    }
}

// The run of tables from an entry on.
fn run_from<I: Source, O: Sink>(
    alloc: Global,
    tables: &Tables,
    entry: EntryId,
    file: Name,
    input: &mut I,
    out: &mut O,
) -> Result<(), Refusal>
    requires valid { Valid tables.now }
    requires exists { IsEntryNumber tables.now entry.0 }
    requires named { file ≡ input_name }
    ensures { RunsFrom tables.now entry.0 (input_of (I.left input.old) (I.left input.new) (I.faults input.old) (I.faults input.new)) (O.written out.old) (O.written out.new) (O.faults out.old) (O.faults out.new) result }
{
    match stream(alloc, tables, default_settings(), entry, input, out) {
        Ok(()) => Ok(()),
        Err(fault) => Err(refusal_by(fault, file)),
    }
}

// The run of tables from the entry of this name on, if there is one.
fn run_over<I: Source, O: Sink>(
    alloc: Global,
    tables: &Tables,
    entry: &str,
    input: &mut I,
    out: &mut O,
) -> Result<(), Refusal>
    ensures { RunsOver tables.now entry.now (input_of (I.left input.old) (I.left input.new) (I.faults input.old) (I.faults input.new)) (O.written out.old) (O.written out.new) (O.faults out.old) (O.faults out.new) result }
{
    let Ok(file) = file_name(alloc, "input") else {
        return Err(Refusal::Memory);
    };
    let arrays = tables.arrays();
    let _ = arrays;
    match tables.entry_named(entry.as_bytes()) {
        Some(number) => run_from(alloc, tables, number, file, input, out),
        None => Err(Refusal::Script(ScriptFault::NoEntry { line: 1 }, file)),
    }
}

// The first machine of a file runs over the standard input, from the entry of this name on, and its lines go out.
pub fn run_input<S: Store, I: Source, O: Sink>(
    alloc: Global,
    name: &str,
    entry: &str,
    store: &mut S,
    input: &mut I,
    out: &mut O,
) -> Result<(), Refusal>
    ensures ends { EndsStreaming (outside_of (S.held store.old) (S.held store.new) (S.faults store.old) (S.faults store.new) (O.written out.old) (O.written out.new) (O.faults out.old) (O.faults out.new)) (input_of (I.left input.old) (I.left input.new) (I.faults input.old) (I.faults input.new)) result (record { spec = name.now; entry = entry.now }) }
    ensures same { S.held store.new ≡ S.held store.old }
{
    let tables = match read_machine(alloc, None, name, store) {
        Ok(tables) => tables,
        Err(refusal) => return Err(refusal),
    };
    run_over(alloc, &tables, entry, input, out)
}
