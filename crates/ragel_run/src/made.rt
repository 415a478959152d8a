// A run over an input that is made.
ghost use Rattle.std.specs.Prelude.{◌≡◌, ◌≤◌, IfOk, IfErr};
ghost use Rattle.rl_playback.specs.Defaults.{default_settings};
ghost use Rattle.rl_made.specs.Made.{made_text};
ghost use Rattle.ragel_run.specs.Ends.{EndsMaking, outside as outside_of};
ghost use Rattle.ragel_run.specs.Reads.{GivesMade};

use crate::outside::write_lines;
use crate::tables::read_machine;
use rl_ends::Refusal;
use rl_io::{Sink, Store};
use rl_made::line_of_made;
use rl_tables::Tables;
use rl_types::{List, Memory};
use std::alloc::Global;

// The line that tells of the run of tables over so many lines.
fn line_by(alloc: Global, tables: &Tables, lines: u64) -> Result<List<u8>, Memory>
    requires low { 1 ≤ lines }
    requires high { lines ≤ 1000000 }
    ensures { IfOk result (λ line. line ≡ made_text tables.now default_settings lines) }
{
    let line = line_of_made(alloc, tables, lines as u32)?;
    Ok(List::from_vec(line))
}

// The line that is due for so many lines.
fn line_for<S: Store>(
    alloc: Global,
    lines: u64,
    name: &str,
    store: &mut S,
) -> Result<List<u8>, Refusal>
    requires low { 1 ≤ lines }
    requires high { lines ≤ 1000000 }
    ensures gives { GivesMade (S.held store.old) (record { lines = lines; spec = name.now }) (S.faults store.old) (S.faults store.new) result }
    ensures same { S.held store.new ≡ S.held store.old }
{
    let tables = match read_machine(alloc, None, name, store) {
        Ok(tables) => tables,
        Err(refusal) => return Err(refusal),
    };
    match line_by(alloc, &tables, lines) {
        Ok(line) => Ok(line),
        Err(_) => Err(Refusal::Memory),
    }
}

// The first machine of a file runs over an input of so many lines, and its line goes out.
pub fn run_made<S: Store, O: Sink>(
    alloc: Global,
    lines: u64,
    name: &str,
    store: &mut S,
    out: &mut O,
) -> Result<(), Refusal>
    requires low { 1 ≤ lines }
    requires high { lines ≤ 1000000 }
    ensures ends { EndsMaking (outside_of (S.held store.old) (S.held store.new) (S.faults store.old) (S.faults store.new) (O.written out.old) (O.written out.new) (O.faults out.old) (O.faults out.new)) result (record { lines = lines; spec = name.now }) }
    ensures same { S.held store.new ≡ S.held store.old }
{
    match line_for(alloc, lines, name, store) {
        Ok(line) => write_lines(line.as_slice(), out),
        Err(refusal) => Err(refusal),
    }
}
