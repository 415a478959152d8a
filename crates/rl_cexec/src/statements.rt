//! The control statements in code, and the code of actions.
ghost use Rattle.std.specs.Prelude.{◌≡◌, ◌++◌, ◌+◌, ◌≤◌, true, length, OnOk, IfOk};
ghost use Rattle.rl_run.specs.declared.statements.StatementKind.TheVariants as kinds;
ghost use Rattle.rl_code.specs.declared.word.CodeWord.TheVariants as w;
ghost use Rattle.rl_code.specs.Texts.{first_word};
ghost use Rattle.rl_lexical.specs.declared.mode.Mode.TheVariants as m;
ghost use Rattle.rl_cexec.specs.Names.{filled};
ghost use Rattle.rl_cexec.specs.Code as code;

use crate::names::push_filled;
use crate::values::{push_first, push_state, push_value, push_values, starts_word};
use rl_arrays::Arrays;
use rl_bytes::{behind_blanks, code_word, cut_word, in_word, is_outside, mode_behind};
use rl_code::CodeWord;
use rl_lexical::Mode;
use rl_model::Frame;
use rl_run::StatementKind;
use std::alloc::AllocError;

/// How many bytes stand before the first `;` outside strings, character literals and comments.
#[tactic(auto, unfolding(crate::specs::Code::goal_len))]
fn goal_len(text: &[u8]) -> usize
    ensures value { result ≡ code.goal_len (m.Code 0) text.now }
    ensures bound { result ≤ length text.now }
{
    let mut mode = Mode::Code(0);
    for len in 0..text.len() {
        if is_outside(mode) && text[len] == b';' {
            return len;
        }
        mode = mode_behind(mode, text[len]);
    }
    text.len()
}

/// What stands between the word of a statement and its `;`.
fn goal(text: &[u8]) -> &[u8]
    ensures { result.now ≡ code.goal text.now }
{
    let (_, behind) = cut_word(text);
    &behind[..goal_len(behind)]
}

/// Writes the state of the entry that a statement names.
fn push_target(text: &mut Vec<u8>, a: &Arrays, goal: &[u8]) -> Result<(), AllocError>
    ensures { OnOk result (text.new.items ≡ text.old.items ++ code.target a.now goal.now) }
{
    let (name, _) = cut_word(behind_blanks(goal));
    push_state(text, a, name)
}

/// The end of a text that leaves the list.
fn leave(at_end: bool) -> &'static [u8]
    ensures { result.now ≡ code.leave at_end }
{
    if at_end {
        b"; goto _out;}"
    } else {
        b"; goto _again;}"
    }
}

/// Writes a template with its names, and what stands behind it.
fn push_with(
    text: &mut Vec<u8>,
    a: &Arrays,
    frame: &Frame,
    template: &[u8],
    behind: &[u8],
) -> Result<(), AllocError>
    ensures { OnOk result (text.new.items ≡ text.old.items ++ (filled a.now.name frame.now template.now ++ behind.now)) }
{
    push_filled(text, a.name.bytes(), frame, template)?;
    text.extend_from_slice(behind)
}

/// Writes a template with its names, the state of the entry that a statement names, and what stands behind it.
fn push_naming(
    text: &mut Vec<u8>,
    a: &Arrays,
    frame: &Frame,
    template: &[u8],
    goal: &[u8],
    behind: &[u8],
) -> Result<(), AllocError>
    ensures { OnOk result (text.new.items ≡ text.old.items ++ (filled a.now.name frame.now template.now ++ (code.target a.now goal.now ++ behind.now))) }
{
    push_filled(text, a.name.bytes(), frame, template)?;
    push_target(text, a, goal)?;
    text.extend_from_slice(behind)
}

fn push_hold(
    text: &mut Vec<u8>,
    a: &Arrays,
    frame: &Frame,
    at_end: bool,
    goal: &[u8],
) -> Result<(), AllocError>
    ensures { OnOk result (text.new.items ≡ text.old.items ++ code.statement_text a.now frame.now at_end kinds.Hold goal.now) }
{
    let _ = goal;
    if at_end {
        text.extend_from_slice(b";")
    } else {
        push_filled(text, a.name.bytes(), frame, b"p--;")
    }
}

fn push_exec(
    text: &mut Vec<u8>,
    a: &Arrays,
    frame: &Frame,
    at_end: bool,
    goal: &[u8],
) -> Result<(), AllocError>
    ensures { OnOk result (text.new.items ≡ text.old.items ++ code.statement_text a.now frame.now at_end kinds.Exec goal.now) }
{
    if at_end {
        return text.extend_from_slice(b";");
    }
    push_filled(text, a.name.bytes(), frame, b"{p = (")?;
    push_values(text, a, frame, goal)?;
    text.extend_from_slice(b") - 1;}")
}

fn push_goto(
    text: &mut Vec<u8>,
    a: &Arrays,
    frame: &Frame,
    at_end: bool,
    goal: &[u8],
) -> Result<(), AllocError>
    ensures { OnOk result (text.new.items ≡ text.old.items ++ code.statement_text a.now frame.now at_end kinds.Goto goal.now) }
{
    push_naming(text, a, frame, b"{cs = ", goal, leave(at_end))
}

fn push_call(
    text: &mut Vec<u8>,
    a: &Arrays,
    frame: &Frame,
    at_end: bool,
    goal: &[u8],
) -> Result<(), AllocError>
    ensures { OnOk result (text.new.items ≡ text.old.items ++ code.statement_text a.now frame.now at_end kinds.Call goal.now) }
{
    push_naming(
        text,
        a,
        frame,
        b"{stack[top++] = cs; cs = ",
        goal,
        leave(at_end),
    )
}

fn push_ret(
    text: &mut Vec<u8>,
    a: &Arrays,
    frame: &Frame,
    at_end: bool,
    goal: &[u8],
) -> Result<(), AllocError>
    ensures { OnOk result (text.new.items ≡ text.old.items ++ code.statement_text a.now frame.now at_end kinds.Ret goal.now) }
{
    let _ = goal;
    push_with(text, a, frame, b"{cs = stack[--top]", leave(at_end))
}

fn push_next(
    text: &mut Vec<u8>,
    a: &Arrays,
    frame: &Frame,
    at_end: bool,
    goal: &[u8],
) -> Result<(), AllocError>
    ensures { OnOk result (text.new.items ≡ text.old.items ++ code.statement_text a.now frame.now at_end kinds.Next goal.now) }
{
    let _ = at_end;
    push_naming(text, a, frame, b"cs = ", goal, b";")
}

fn push_break(
    text: &mut Vec<u8>,
    a: &Arrays,
    frame: &Frame,
    at_end: bool,
    goal: &[u8],
) -> Result<(), AllocError>
    ensures { OnOk result (text.new.items ≡ text.old.items ++ code.statement_text a.now frame.now at_end kinds.Break goal.now) }
{
    let _ = goal;
    if at_end {
        text.extend_from_slice(b"{goto _out;}")
    } else {
        push_filled(text, a.name.bytes(), frame, b"{p++; goto _out;}")
    }
}

/// Writes what a statement prints, by what stands before its `;`.
fn push_statement(
    text: &mut Vec<u8>,
    a: &Arrays,
    frame: &Frame,
    at_end: bool,
    kind: StatementKind,
    goal: &[u8],
) -> Result<(), AllocError>
    ensures { OnOk result (text.new.items ≡ text.old.items ++ code.statement_text a.now frame.now at_end kind goal.now) }
{
    match kind {
        StatementKind::Hold => push_hold(text, a, frame, at_end, goal),
        StatementKind::Exec => push_exec(text, a, frame, at_end, goal),
        StatementKind::Goto => push_goto(text, a, frame, at_end, goal),
        StatementKind::Call => push_call(text, a, frame, at_end, goal),
        StatementKind::Ret => push_ret(text, a, frame, at_end, goal),
        StatementKind::Next => push_next(text, a, frame, at_end, goal),
        StatementKind::Break => push_break(text, a, frame, at_end, goal),
    }
}

/// How many bytes of a statement stand behind its first.
fn behind_in_statement(from: &[u8]) -> usize
    ensures { result ≡ length (first_word from.now) + length (code.goal from.now) }
{
    let (word, behind) = cut_word(from);
    word.len() + goal_len(behind)
}

/// Writes a statement in place of its text, behind a blank.
fn push_control(
    text: &mut Vec<u8>,
    a: &Arrays,
    frame: &Frame,
    at_end: bool,
    kind: StatementKind,
    from: &[u8],
) -> Result<usize, AllocError>
    ensures text { OnOk result (text.new.items ≡ text.old.items ++ (code.statement_or_value a.now frame.now at_end (w.Control kind) from.now).text) }
    ensures skip { IfOk result (λ n. n ≡ (code.statement_or_value a.now frame.now at_end (w.Control kind) from.now).skip) }
{
    text.extend_from_slice(b" ")?;
    push_statement(text, a, frame, at_end, kind, goal(from))?;
    Ok(behind_in_statement(from))
}

/// Writes what stands in place of a word that begins a statement or is a value. The answer is how many bytes behind its first
/// are done with that.
fn push_word(
    text: &mut Vec<u8>,
    a: &Arrays,
    frame: &Frame,
    at_end: bool,
    word: CodeWord,
    from: &[u8],
) -> Result<usize, AllocError>
    ensures text { OnOk result (text.new.items ≡ text.old.items ++ (code.statement_or_value a.now frame.now at_end word from.now).text) }
    ensures skip { IfOk result (λ n. n ≡ (code.statement_or_value a.now frame.now at_end word from.now).skip) }
{
    match word {
        CodeWord::Control(kind) => push_control(text, a, frame, at_end, kind, from),
        CodeWord::Entry => push_value(text, a, frame, CodeWord::Entry, from),
        CodeWord::Position => push_value(text, a, frame, CodeWord::Position, from),
        CodeWord::Character => push_value(text, a, frame, CodeWord::Character, from),
        CodeWord::LeftOut => push_value(text, a, frame, CodeWord::LeftOut, from),
    }
}

/// Writes what is printed at a byte of code.
#[tactic(auto, unfolding(crate::specs::Code::turn))]
fn push_turn(
    text: &mut Vec<u8>,
    a: &Arrays,
    frame: &Frame,
    at_end: bool,
    skip: usize,
    fresh: bool,
    mode: Mode,
    from: &[u8],
) -> Result<usize, AllocError>
    ensures text { OnOk result (text.new.items ≡ text.old.items ++ (code.turn (code.statement_or_value a.now frame.now at_end) skip fresh mode from.now).text) }
    ensures skip { IfOk result (λ n. n ≡ (code.turn (code.statement_or_value a.now frame.now at_end) skip fresh mode from.now).skip) }
{
    if skip > 0 {
        return Ok(skip - 1);
    }
    if !starts_word(fresh, mode) {
        return push_first(text, from);
    }
    match code_word(cut_word(from).0) {
        Some(word) => push_word(text, a, frame, at_end, word, from),
        None => push_first(text, from),
    }
}

/// Writes code behind its first brace.
#[tactic(auto, unfolding(crate::specs::Code::code_from))]
fn push_code(
    text: &mut Vec<u8>,
    a: &Arrays,
    frame: &Frame,
    at_end: bool,
    from: &[u8],
) -> Result<(), AllocError>
    ensures { OnOk result (text.new.items ≡ text.old.items ++ code.code_from (code.statement_or_value a.now frame.now at_end) 0 true (m.Code 0) from.now) }
{
    let mut skip = 0;
    let mut fresh = true;
    let mut mode = Mode::Code(0);
    for at in 0..from.len() {
        skip = push_turn(text, a, frame, at_end, skip, fresh, mode, &from[at..])?;
        fresh = !in_word(from[at]);
        mode = mode_behind(mode, from[at]);
    }
    Ok(())
}

/// Writes the code of an action, with its braces.
pub(crate) fn push_action(
    text: &mut Vec<u8>,
    a: &Arrays,
    frame: &Frame,
    at_end: bool,
    from: &[u8],
) -> Result<(), AllocError>
    ensures { OnOk result (text.new.items ≡ text.old.items ++ code.written_code a.now frame.now at_end from.now) }
{
    match from.split_first() {
        Some((first, rest)) => {
            text.extend_from_slice(&[*first])?;
            push_code(text, a, frame, at_end, rest)
        }
        None => Ok(()),
    }
}
