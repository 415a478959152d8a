//! The texts that set a session to its start and that run a machine.
ghost use Rattle.std.specs.Prelude.{◌≡◌, ◌++◌, map, codes, flat_map, OnOk, IfOk};
ghost use Rattle.rl_cexec.specs.Texts as texts;
ghost use Rattle.rl_cexec.specs.Seen.{seen};

use crate::cases::push_switch;
use crate::conditions::push_conditions;
use crate::has::{calls, has_ending, has_scanner};
use crate::line::{EXEC, INIT, Line};
use crate::names::push_filled;
use rl_arrays::Arrays;
use rl_model::{Frame, Spec};
use rl_tables::Tables;
use rl_types::Memory;
use std::alloc::{AllocError, Global};

/// Writes a line with its names, if it stands.
fn push_line_if(
    text: &mut Vec<u8>,
    stands: bool,
    a: &Arrays,
    frame: &Frame,
    line: &[u8],
) -> Result<(), AllocError>
    ensures { OnOk result (text.new.items ≡ text.old.items ++ texts.line_if stands a.now frame.now line.now) }
{
    if !stands {
        return Ok(());
    }
    push_filled(text, a.name.bytes(), frame, line)?;
    text.extend_from_slice(b"\n")
}

/// Writes a line, or the lines that stand in its place.
fn push_line(
    alloc: Global,
    text: &mut Vec<u8>,
    spec: &Spec,
    a: &Arrays,
    frame: &Frame,
    line: Line,
) -> Result<(), AllocError>
    ensures { OnOk result (text.new.items ≡ text.old.items ++ texts.line_text spec.now a.now frame.now (seen line)) }
{
    match line {
        Line::Always(words) => push_line_if(text, true, a, frame, words),
        Line::IfCalls(words) => push_line_if(text, calls(a), a, frame, words),
        Line::IfScanner(words) => push_line_if(text, has_scanner(spec), a, frame, words),
        Line::IfEnding(words) => push_line_if(text, has_ending(spec, a), a, frame, words),
        Line::EachCondition => push_conditions(text, spec, a, frame),
        Line::Cases(switch) => push_switch(alloc, text, spec, a, frame, switch),
    }
}

/// Writes these lines.
fn push_lines(
    alloc: Global,
    text: &mut Vec<u8>,
    spec: &Spec,
    a: &Arrays,
    frame: &Frame,
    lines: &[Line],
) -> Result<(), AllocError>
    ensures { OnOk result (text.new.items ≡ text.old.items ++ flat_map (texts.line_text spec.now a.now frame.now) (map seen lines.now)) }
{
    for line in lines {
        push_line(alloc, text, spec, a, frame, *line)?;
    }
    Ok(())
}

/// The text of these lines.
fn written(
    alloc: Global,
    spec: &Spec,
    a: &Arrays,
    frame: &Frame,
    lines: &[Line],
) -> Result<Vec<u8>, AllocError>
    ensures { IfOk result (λ text. text.items ≡ flat_map (texts.line_text spec.now a.now frame.now) (map seen lines.now)) }
{
    let mut text = Vec::new(alloc);
    push_lines(alloc, &mut text, spec, a, frame, lines)?;
    Ok(text)
}

fn written_init(
    alloc: Global,
    spec: &Spec,
    a: &Arrays,
    frame: &Frame,
) -> Result<Vec<u8>, AllocError>
    ensures { IfOk result (λ text. text.items ≡ texts.init_text spec.now a.now frame.now) }
{
    written(alloc, spec, a, frame, &INIT)
}

fn written_exec(
    alloc: Global,
    spec: &Spec,
    a: &Arrays,
    frame: &Frame,
) -> Result<Vec<u8>, AllocError>
    ensures { IfOk result (λ text. text.items ≡ texts.exec_text spec.now a.now frame.now) }
{
    written(alloc, spec, a, frame, &EXEC)
}

/// The text that `write init` stands for (the guide's section 5.7): a block of C that sets a session to the start of the
/// machine, its stack to none where an action calls or returns, and its token to none where the machine has a scanner. An `Err`
/// is want of memory.
pub fn init_text(
    alloc: Global,
    spec: &Spec,
    tables: &Tables,
    frame: &Frame,
) -> Result<Vec<u8>, Memory>
    ensures { IfOk result (λ text. text.items ≡ texts.init_text spec.now tables.now frame.now) }
{
    match written_init(alloc, spec, tables.arrays(), frame) {
        Ok(text) => Ok(text),
        Err(_) => Err(Memory),
    }
}

/// The text that `write exec` stands for (the guide's section 5.7): a block of C that runs the machine over the characters from
/// `p` to `pe`, by the arrays of its data section, with the code of its actions and conditions in their places (this profile).
/// An `Err` is want of memory.
pub fn exec_text(
    alloc: Global,
    spec: &Spec,
    tables: &Tables,
    frame: &Frame,
) -> Result<Vec<u8>, Memory>
    ensures { IfOk result (λ text. text.items ≡ texts.exec_text spec.now tables.now frame.now) }
{
    match written_exec(alloc, spec, tables.arrays(), frame) {
        Ok(text) => Ok(text),
        Err(_) => Err(Memory),
    }
}
