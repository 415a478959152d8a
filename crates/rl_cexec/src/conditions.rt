//! The lines that ask conditions.
ghost use Rattle.std.specs.Prelude.{◌≡◌, ◌++◌, ◌-◌, length, take, drop, flat_map, OnOk};
ghost use Rattle.std.specs.List.{zip};
ghost use Rattle.std.specs.Fmt.{decimal};
ghost use Rattle.rl_cexec.specs.Names.{filled};
ghost use Rattle.rl_cexec.specs.Code as code;
ghost use Rattle.rl_cexec.specs.Texts as texts;

use crate::actions::action_named;
use crate::names::push_filled;
use crate::values::push_values;
use itoa::Buffer;
use rl_arrays::Arrays;
use rl_model::{Frame, Spec};
use rl_types::Name;
use std::alloc::AllocError;

/// All but the last byte.
fn but_last(text: &[u8]) -> &[u8]
    ensures { result.now ≡ take (length text.now - 1) text.now }
{
    if text.is_empty() {
        text
    } else {
        &text[..text.len() - 1]
    }
}

/// What stands between the braces of a code.
fn between_braces(from: &[u8]) -> &[u8]
    ensures { result.now ≡ take (length from.now - 2) (drop 1 from.now) }
{
    match from {
        [] => from,
        [_, rest @ ..] => but_last(rest),
    }
}

/// Writes the code of a condition, without its braces.
fn push_condition(
    text: &mut Vec<u8>,
    a: &Arrays,
    frame: &Frame,
    from: &[u8],
) -> Result<(), AllocError>
    ensures { OnOk result (text.new.items ≡ text.old.items ++ code.condition_text a.now frame.now from.now) }
{
    push_values(text, a, frame, between_braces(from))
}

/// Writes a template with its names, a bit, and the code of a condition, with what stands before and behind it.
fn push_asked(
    text: &mut Vec<u8>,
    a: &Arrays,
    frame: &Frame,
    template: &[u8],
    bit: u32,
    before: &[u8],
    from: &[u8],
    behind: &[u8],
) -> Result<(), AllocError>
    ensures { OnOk result (text.new.items ≡ text.old.items ++ (filled a.now.name frame.now template.now ++ (decimal bit ++ (before.now ++ (code.condition_text a.now frame.now from.now ++ behind.now))))) }
{
    push_filled(text, a.name.bytes(), frame, template)?;
    text.extend_from_slice(Buffer::new().format(bit).as_bytes())?;
    text.extend_from_slice(before)?;
    push_condition(text, a, frame, from)?;
    text.extend_from_slice(behind)
}

/// Writes the line that asks a condition.
fn push_condition_line(
    text: &mut Vec<u8>,
    a: &Arrays,
    frame: &Frame,
    bit: u32,
    from: &[u8],
) -> Result<(), AllocError>
    ensures { OnOk result (text.new.items ≡ text.old.items ++ texts.condition_line a.now frame.now bit from.now) }
{
    push_asked(
        text,
        a,
        frame,
        b"\t\tif ( _N_cell_asks[_f] & ",
        bit,
        b" ) { if ( ",
        from,
        b" ) _e += _b; _b *= 2; }\n",
    )
}

fn push_condition_named(
    text: &mut Vec<u8>,
    spec: &Spec,
    a: &Arrays,
    frame: &Frame,
    bit: u32,
    name: &[u8],
) -> Result<(), AllocError>
    ensures { OnOk result (text.new.items ≡ text.old.items ++ texts.condition_named spec.now a.now frame.now (bit, name.now)) }
{
    match action_named(spec.actions.as_slice(), name) {
        Some(action) => push_condition_line(text, a, frame, bit, action.code.bytes()),
        None => Ok(()),
    }
}

/// Writes the lines of conditions, each with its bit.
fn push_each(
    text: &mut Vec<u8>,
    spec: &Spec,
    a: &Arrays,
    frame: &Frame,
    bits: &[u32],
    names: &[Name],
) -> Result<(), AllocError>
    ensures { OnOk result (text.new.items ≡ text.old.items ++ flat_map (texts.condition_named spec.now a.now frame.now) (zip bits.now names.now)) }
{
    let mut bits_left = bits;
    let mut names_left = names;
    while let Some((bit, more_bits)) = bits_left.split_first() {
        match names_left.split_first() {
            None => return Ok(()),
            Some((name, more_names)) => {
                push_condition_named(text, spec, a, frame, *bit, name.bytes())?;
                bits_left = more_bits;
                names_left = more_names;
            }
        }
    }
    Ok(())
}

/// Writes the lines of all conditions, in ascending order.
pub(crate) fn push_conditions(
    text: &mut Vec<u8>,
    spec: &Spec,
    a: &Arrays,
    frame: &Frame,
) -> Result<(), AllocError>
    ensures { OnOk result (text.new.items ≡ text.old.items ++ texts.conditions_text spec.now a.now frame.now) }
{
    match a.cond_names.as_slice() {
        [] => Ok(()),
        [_, names @ ..] => push_each(text, spec, a, frame, &[1, 2, 4, 8, 16, 32, 64, 128], names),
    }
}
