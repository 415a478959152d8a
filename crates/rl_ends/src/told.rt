// The line that each end is told by.
ghost use Rattle.std.specs.Prelude.{◌≡◌, ◌++◌, IfOk, OnOk, codes, decimal};
ghost use Rattle.rl_arrays.specs.Section.{word};
ghost use Rattle.rl_ends.specs.Told.{TellsAs, line_of, told_at, told_in_line, told_refusal, told_script, told_section, words_of_fault, words_of_limit};

use crate::refusal::Refusal;
use itoa::Buffer;
use rl_arrays::BadValue;
use rl_cread::{TableFault, array_word};
use rl_io::{Sink, SinkFault};
use rl_replay::ScriptFault;
use rl_types::{FaultKind, LimitKind, Memory, Place};
use std::alloc::{AllocError, Global};

// Two texts in a row.
fn push_both(text: &mut Vec<u8>, first: &[u8], second: &[u8]) -> Result<(), AllocError>
    ensures { OnOk result (text.new.items ≡ text.old.items ++ first.now ++ second.now) }
{
    text.extend_from_slice(first)?;
    text.extend_from_slice(second)
}

// What is wrong in a line of a file.
fn push_in_line(text: &mut Vec<u8>, name: &[u8], line: u64, words: &[u8]) -> Result<(), AllocError>
    ensures { OnOk result (text.new.items ≡ text.old.items ++ told_in_line name.now line words.now) }
{
    push_both(text, name, b":")?;
    push_both(text, Buffer::new().format(line).as_bytes(), b": ")?;
    push_both(text, words, b"\n")
}

// The number of a fault, and what it is.
fn fault_words(kind: FaultKind) -> &'static [u8]
    ensures { result.now ≡ words_of_fault kind }
{
    match kind {
        FaultKind::F1 => b"F1 bad character",
        FaultKind::F2 => b"F2 unclosed",
        FaultKind::F3 => b"F3 syntax",
        FaultKind::F4 => b"F4 no machine",
        FaultKind::F5 => b"F5 unknown name",
        FaultKind::F6 => b"F6 twice",
        FaultKind::F7 => b"F7 number",
        FaultKind::F8 => b"F8 key range",
        FaultKind::F9 => b"F9 range ends",
        FaultKind::F10 => b"F10 counts",
        FaultKind::F11 => b"F11 scanner place",
        FaultKind::F12 => b"F12 zero token",
        FaultKind::F13 => b"F13 statement place",
        FaultKind::F14 => b"F14 mark in scanner",
        FaultKind::F15 => b"F15 priority cycle",
        FaultKind::F16 => b"F16 no entry",
        FaultKind::F17 => b"F17 include loop",
        FaultKind::F18 => b"F18 no instance",
        FaultKind::F19 => b"F19 marker",
    }
}

// The number of a limit, and what it counts.
fn limit_words(kind: LimitKind) -> &'static [u8]
    ensures { result.now ≡ words_of_limit kind }
{
    match kind {
        LimitKind::L1 => b"L1 bytes",
        LimitKind::L2 => b"L2 includes",
        LimitKind::L3 => b"L3 parentheses",
        LimitKind::L4 => b"L4 nodes",
        LimitKind::L5 => b"L5 depth",
        LimitKind::L6 => b"L6 configurations",
        LimitKind::L7 => b"L7 conditions",
        LimitKind::L8 => b"L8 cells",
        LimitKind::L9 => b"L9 names",
        LimitKind::L10 => b"L10 statements",
        LimitKind::L11 => b"L11 states",
        LimitKind::L12 => b"L12 input",
    }
}

// A place in a file.
fn push_place(text: &mut Vec<u8>, name: &[u8], place: Place) -> Result<(), AllocError>
    ensures { OnOk result (text.new.items ≡ text.old.items ++ name.now ++ codes ":" ++ decimal place.line ++ codes ":" ++ decimal place.col) }
{
    push_both(text, name, b":")?;
    push_both(text, Buffer::new().format(place.line).as_bytes(), b":")?;
    text.extend_from_slice(Buffer::new().format(place.col).as_bytes())
}

// What is wrong at a place in a file.
fn push_told(text: &mut Vec<u8>, name: &[u8], place: Place, words: &[u8]) -> Result<(), AllocError>
    ensures { OnOk result (text.new.items ≡ text.old.items ++ told_at name.now place words.now) }
{
    push_place(text, name, place)?;
    push_both(text, b": ", words)?;
    text.extend_from_slice(b"\n")
}

// The line of an element that is not right.
fn push_bad_value(text: &mut Vec<u8>, name: &[u8], bad: BadValue) -> Result<(), AllocError>
    ensures { OnOk result (text.new.items ≡ text.old.items ++ name.now ++ codes ": bad value in " ++ word bad.array ++ codes " at " ++ decimal bad.index ++ codes "\n") }
{
    push_both(text, name, b": bad value in ")?;
    push_both(text, array_word(bad.array), b" at ")?;
    push_both(text, Buffer::new().format(bad.index).as_bytes(), b"\n")
}

// The line that a section which is not right is told by.
fn push_section(text: &mut Vec<u8>, name: &[u8], fault: &TableFault) -> Result<(), AllocError>
    ensures { OnOk result (text.new.items ≡ text.old.items ++ told_section name.now fault.now) }
{
    match fault {
        TableFault::NoSection => push_both(text, name, b": no section\n"),
        TableFault::BadText { line } => push_in_line(text, name, *line, b"bad text"),
        TableFault::BadValue(bad) => push_bad_value(text, name, *bad),
        TableFault::Memory => text.extend_from_slice(b"out of memory\n"),
    }
}

// The line that a fault of a script is told by.
fn push_script(text: &mut Vec<u8>, name: &[u8], fault: &ScriptFault) -> Result<(), AllocError>
    ensures { OnOk result (text.new.items ≡ text.old.items ++ told_script name.now fault.now) }
{
    match fault {
        ScriptFault::BadLine { line } => push_in_line(text, name, *line, b"bad line"),
        ScriptFault::Twice { line } => push_in_line(text, name, *line, b"twice"),
        ScriptFault::NoSession { line } => push_in_line(text, name, *line, b"no session"),
        ScriptFault::NoEntry { line } => push_in_line(text, name, *line, b"no entry"),
        ScriptFault::NoName { line } => push_in_line(text, name, *line, b"no name"),
        ScriptFault::Full { line } => push_in_line(text, name, *line, b"full"),
        ScriptFault::Memory => text.extend_from_slice(b"out of memory\n"),
    }
}

// The line that a refusal is told by.
fn push_refusal(text: &mut Vec<u8>, refusal: &Refusal) -> Result<(), AllocError>
    ensures { OnOk result (text.new.items ≡ text.old.items ++ told_refusal refusal.now) }
{
    match refusal {
        Refusal::Usage => text.extend_from_slice(b"usage\n"),
        Refusal::Fault(fault, file) => {
            push_told(text, file.bytes(), fault.place, fault_words(fault.kind))
        }
        Refusal::Limit(limit, file) => {
            push_told(text, file.bytes(), limit.place, limit_words(limit.kind))
        }
        Refusal::Missing(file) => push_both(text, file.bytes(), b": missing\n"),
        Refusal::StoreFailed(file) => push_both(text, file.bytes(), b": store failed\n"),
        Refusal::Section(fault, file) => push_section(text, file.bytes(), fault),
        Refusal::Script(fault, file) => push_script(text, file.bytes(), fault),
        Refusal::InputFailed => text.extend_from_slice(b"input failed\n"),
        Refusal::OutputFailed => text.extend_from_slice(b"output failed\n"),
        Refusal::Memory => text.extend_from_slice(b"out of memory\n"),
    }
}

// The line that an end is told by, in memory of its own.
fn line_for(alloc: Global, end: &Result<(), Refusal>) -> Result<Vec<u8>, Memory>
    ensures { IfOk result (λ v. v.items ≡ line_of end.now) }
{
    let mut text = Vec::new(alloc);
    let pushed = match end {
        Ok(()) => Ok(()),
        Err(refusal) => push_refusal(&mut text, refusal),
    };
    match pushed {
        Ok(()) => Ok(text),
        Err(_) => Err(Memory),
    }
}

/// Writes the line of an end to the error output, in one call, and answers what became of it: `NAME:LINE:COL: F3 syntax`
/// for a fault and `NAME:LINE:COL: L3 parentheses` for a limit, with the words of each, `NAME: missing`, `NAME: store
/// failed`, `NAME: no section`, `NAME:LINE: bad text`, `NAME: bad value in ARRAY at INDEX`, `NAME:LINE: bad line` and the
/// like for a script, `usage`, `input failed`, `output failed` and `out of memory`. An end without a refusal has no line
/// (this profile).
///
/// `Failed` where the output failed, which has a prefix of the line then; `Memory` for want of memory, and nothing was
/// written.
pub fn tell<E: Sink>(alloc: Global, end: &Result<(), Refusal>, err: &mut E) -> Result<(), SinkFault>
    ensures { TellsAs (E.written err.old) (E.written err.new) (E.faults err.old) (E.faults err.new) (line_of end.now) result }
{
    match line_for(alloc, end) {
        Ok(line) => err.write_all(&line),
        Err(_) => Err(SinkFault::Memory),
    }
}
