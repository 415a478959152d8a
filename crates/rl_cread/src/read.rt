//! Reading the section of a file.
ghost use Rattle.std.specs.Prelude.{IfOk, IfErr, MatchResult, ◌≡◌, ◌+◌, ◌<◌, ◌^◌, ℕ, map, drop, length};
ghost use Rattle.std.specs.Option.{option_copied};
ghost use Rattle.rl_arrays.specs.declared.arrays.Arrays.{Arrays};
ghost use Rattle.rl_arrays.specs.Valid.{Valid};
ghost use Rattle.rl_cread.specs.Contents.{HasNumbers};
ghost use Rattle.rl_cread.specs.Sections.{IsRead, Explains};
ghost use Rattle.rl_cread.specs.Reading.{ReadsAs};
ghost use Rattle.rl_cread.specs.Outcome.{StopsIn, IsReadAt, IsRefusedAt};

use crate::fault::TableFault;
use crate::raw::Raw;
use crate::said::Stop;
use crate::section::read_section;
use crate::texts::{first_section, lines_from, lines_of};
use crate::values::tables_of;
use rl_tables::Tables;
use std::alloc::Global;

/// The section whose first line stands at an index.
fn raw_at(
    alloc: Global,
    shared: bool,
    name: &[u8],
    lines: &[&[u8]],
    at: usize,
) -> Result<Raw, TableFault>
    requires within { at < length lines.now }
    requires few { length lines.now < 2 ^ 63 }
    ensures found { IfOk result (ReadsAs shared name.now (drop (at + 1) (map (λ line. line.now) lines.now))) }
    ensures told { IfErr result (StopsIn shared name.now (map (λ line. line.now) lines.now) at) }
{
    match read_section(alloc, shared, name, lines_from(lines, at + 1)) {
        Ok(raw) => Ok(raw),
        Err(Stop::Memory) => Err(TableFault::Memory),
        Err(Stop::BadLine(place)) => Err(TableFault::BadText {
            line: at as u64 + place + 2,
        }),
    }
}

/// The tables of the section whose first line stands at an index.
fn tables_at(
    alloc: Global,
    shared: bool,
    name: &[u8],
    lines: &[&[u8]],
    at: usize,
) -> Result<Tables, TableFault>
    requires within { at < length lines.now }
    requires few { length lines.now < 2 ^ 63 }
    ensures read { IfOk result (IsReadAt shared name.now (map (λ line. line.now) lines.now) at) }
    ensures told { IfErr result (IsRefusedAt shared name.now (map (λ line. line.now) lines.now) at) }
{
    match raw_at(alloc, shared, name, lines, at) {
        Ok(raw) => tables_of(raw),
        Err(fault) => Err(fault),
    }
}

/// The same for the first section of a text.
fn tables_in(alloc: Global, text: &[u8], machine: Option<&[u8]>) -> Result<Tables, TableFault>
    ensures read { IfOk result (IsRead (option_copied machine.entry) text.now) }
    ensures numbers { IfOk result (λ t. HasNumbers t) }
    ensures told { IfErr result (Explains (option_copied machine.entry) text.now) }
    ensures only { (a : Arrays) → IsRead (option_copied machine.entry) text.now a → HasNumbers a → Valid a → MatchResult result (λ t. t ≡ a) (λ e. e ≡ TableFault.Memory) }
{
    let lines = lines_of(alloc, text)?;
    match first_section(machine, &lines) {
        Some((at, shared, name)) => tables_at(alloc, shared, name, &lines, at),
        None => Err(TableFault::NoSection),
    }
}

/// The tables of the first section in a text: of the machine of this name, or of any machine where none is named. The
/// first line of a section says which version it has. Lines before and behind the section may be any. The text is looked at first, line by line, and then the values, array by
/// array (this profile).
///
/// It answers NoSection exactly where no line begins a section, and BadText, BadValue and Memory as `TableFault` says.
pub fn read_tables(alloc: Global, text: &[u8], machine: Option<&[u8]>) -> Result<Tables, TableFault>
    // the section's lines are exactly those of the tables
    ensures read { IfOk result (IsRead (option_copied machine.entry) text.now) }
    ensures numbers { IfOk result (λ t. HasNumbers t) }
    ensures told { IfErr result (Explains (option_copied machine.entry) text.now) }
    // A section of valid arrays, whose numbers fit their type, is read.
    ensures only { (a : Arrays) → IsRead (option_copied machine.entry) text.now a → HasNumbers a → Valid a → MatchResult result (λ t. t ≡ a) (λ e. e ≡ TableFault.Memory) }
{
    tables_in(alloc, text, machine)
}
