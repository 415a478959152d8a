//! The cases of switches.
ghost use Rattle.std.specs.Prelude.{◌≡◌, ◌++◌, map, drop, codes, OnOk};
ghost use Rattle.std.specs.Fmt.{decimal};
ghost use Rattle.rl_arrays.specs.Words.{natural};
ghost use Rattle.rl_cexec.specs.Texts as texts;

use crate::actions::{action_named, is_among, turn_actions};
use crate::has::{has_ending, has_scanner};
use crate::line::Switch;
use crate::statements::push_action;
use itoa::Buffer;
use rl_arrays::Arrays;
use rl_model::{ActionDef, Frame, Spec};
use rl_types::Place;
use std::alloc::{AllocError, Global};

/// Whether a switch has a case for an action, where these are the actions of from-state and to-state lists.
fn has_case(a: &Arrays, found: &[i64], switch: Switch, k: usize) -> bool
    requires { map natural found.now ≡ texts.turn_actions a.now }
    ensures { result ≡ texts.has_case a.now switch k }
{
    let _ = a;
    match switch {
        Switch::From => is_among(found, k),
        Switch::To => is_among(found, k),
        Switch::Do => true,
        Switch::Token => true,
        Switch::End => true,
    }
}

fn is_at_end(switch: Switch) -> bool
    ensures { result ≡ texts.is_at_end switch }
{
    match switch {
        Switch::End => true,
        _ => false,
    }
}

/// The byte, or `?` where it can't stand between double quotes.
fn quotable(b: u8) -> u8
    ensures { result ≡ texts.quotable b }
{
    if b < 32 || (b == b'"' || b == b'\\') {
        b'?'
    } else {
        b
    }
}

/// Writes the name of a file as it stands between double quotes.
fn push_quotable(text: &mut Vec<u8>, name: &[u8]) -> Result<(), AllocError>
    ensures { OnOk result (text.new.items ≡ text.old.items ++ map texts.quotable name.now) }
{
    for b in name {
        text.extend_from_slice(&[quotable(*b)])?;
    }
    Ok(())
}

fn push_file(text: &mut Vec<u8>, spec: &Spec, place: Place) -> Result<(), AllocError>
    ensures { OnOk result (text.new.items ≡ text.old.items ++ texts.file_text spec.now place) }
{
    match spec.files.as_slice().get(place.file as usize) {
        Some(name) => push_quotable(text, name.bytes()),
        None => Ok(()),
    }
}

/// Writes the line that says where an action's code stands in the source.
fn push_mark(text: &mut Vec<u8>, spec: &Spec, frame: &Frame, place: Place) -> Result<(), AllocError>
    ensures { OnOk result (text.new.items ≡ text.old.items ++ texts.mark_text spec.now frame.now place) }
{
    if !frame.marked {
        return Ok(());
    }
    text.extend_from_slice(b"#line ")?;
    text.extend_from_slice(Buffer::new().format(place.line).as_bytes())?;
    text.extend_from_slice(b" \"")?;
    push_file(text, spec, place)?;
    text.extend_from_slice(b"\"\n")
}

/// Writes the case of an action's number.
fn push_case(
    text: &mut Vec<u8>,
    spec: &Spec,
    a: &Arrays,
    frame: &Frame,
    switch: Switch,
    k: usize,
    action: &ActionDef,
) -> Result<(), AllocError>
    ensures { OnOk result (text.new.items ≡ text.old.items ++ texts.case_text spec.now a.now frame.now switch k action.now) }
{
    text.extend_from_slice(b"\tcase ")?;
    text.extend_from_slice(Buffer::new().format(k).as_bytes())?;
    text.extend_from_slice(b":\n")?;
    push_mark(text, spec, frame, action.place)?;
    push_action(text, a, frame, is_at_end(switch), action.code.bytes())?;
    text.extend_from_slice(b"\n\tbreak;\n")
}

fn push_case_named(
    text: &mut Vec<u8>,
    spec: &Spec,
    a: &Arrays,
    frame: &Frame,
    found: &[i64],
    switch: Switch,
    k: usize,
    name: &[u8],
) -> Result<(), AllocError>
    requires { map natural found.now ≡ texts.turn_actions a.now }
    ensures { OnOk result (text.new.items ≡ text.old.items ++ texts.case_named spec.now a.now frame.now switch k name.now) }
{
    if !has_case(a, found, switch, k) {
        return Ok(());
    }
    match action_named(spec.actions.as_slice(), name) {
        Some(action) => push_case(text, spec, a, frame, switch, k, action),
        None => Ok(()),
    }
}

/// Writes the cases of all actions, in ascending order.
fn push_cases(
    text: &mut Vec<u8>,
    spec: &Spec,
    a: &Arrays,
    frame: &Frame,
    found: &[i64],
    switch: Switch,
) -> Result<(), AllocError>
    requires { map natural found.now ≡ texts.turn_actions a.now }
    ensures { OnOk result (text.new.items ≡ text.old.items ++ texts.cases_from spec.now a.now frame.now switch 1 (drop 1 a.now.action_names)) }
{
    let names = a.action_names.as_slice();
    for k in 1..names.len() {
        push_case_named(text, spec, a, frame, found, switch, k, names[k].bytes())?;
    }
    Ok(())
}

/// Whether the text has a switch at all.
fn has_switch(spec: &Spec, a: &Arrays, switch: Switch) -> bool
    ensures { result ≡ texts.has_switch spec.now a.now switch }
{
    match switch {
        Switch::Token => has_scanner(spec),
        Switch::End => has_ending(spec, a),
        Switch::From => true,
        Switch::Do => true,
        Switch::To => true,
    }
}

/// Writes the cases of a switch, if the text has it.
pub(crate) fn push_switch(
    alloc: Global,
    text: &mut Vec<u8>,
    spec: &Spec,
    a: &Arrays,
    frame: &Frame,
    switch: Switch,
) -> Result<(), AllocError>
    ensures { OnOk result (text.new.items ≡ text.old.items ++ texts.cases_text spec.now a.now frame.now switch) }
{
    if !has_switch(spec, a, switch) {
        return Ok(());
    }
    let found = turn_actions(alloc, a)?;
    push_cases(text, spec, a, frame, &found, switch)
}
