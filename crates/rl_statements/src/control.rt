// What words of code say.
ghost use Rattle.std.specs.Prelude.{◌≡◌, ◌+◌, ◌<◌, ◌^◌, if◌then◌else◌, length, pos, option_map, IfOk, MatchOption, None, Some};
ghost use Rattle.rl_run.specs.declared.statements.GoalBase.TheVariants as bases;
ghost use Rattle.rl_run.specs.declared.statements.StatementKind.TheVariants as kinds;
ghost use Rattle.rl_code.specs.declared.word.CodeWord.TheVariants as w;
ghost use Rattle.rl_code.specs.Texts as texts;
ghost use Rattle.rl_code.specs.Forms as forms;

use crate::goal::goal_in;
use crate::memory::named;
use crate::text::{only_name, up_to_semicolon};
use rl_bytes::{are_blanks, behind_blanks, cut_word};
use rl_code::{CodeWord, Control, Saying};
use rl_run::{GoalBase, StatementKind};
use rl_types::Memory;
use std::alloc::Global;

/// The exec that has this as its text.
fn exec_in(outer: bool, text: &[u8]) -> Option<Control>
    ensures { result ≡ forms.control_in kinds.Exec outer text.now }
{
    match goal_in(text) {
        Some(goal) => Some(Control {
            kind: StatementKind::Exec,
            outer,
            target: None,
            base: goal.base,
            offset: goal.offset,
        }),
        None => None,
    }
}

/// The statement of a kind that names an entry.
fn naming(
    alloc: Global,
    kind: StatementKind,
    outer: bool,
    text: &[u8],
) -> Result<Option<Control>, Memory>
    ensures { IfOk result (λ c. c ≡ option_map (λ name. record { kind = kind; outer = outer; target = Some name; base = bases.Unread; offset = pos 0 }) (texts.only_name text.now)) }
{
    match only_name(text) {
        Some(name) => {
            let name = named(alloc, name)?;
            Ok(Some(Control {
                kind,
                outer,
                target: Some(name),
                base: GoalBase::Unread,
                offset: 0,
            }))
        }
        None => Ok(None),
    }
}

/// The statement of a kind that has no text.
fn bare(kind: StatementKind, outer: bool, text: &[u8]) -> Option<Control>
    ensures { result ≡ if texts.are_blanks text.now then Some (forms.plain_control kind outer) else None }
{
    if are_blanks(text) {
        Some(Control {
            kind,
            outer,
            target: None,
            base: GoalBase::Unread,
            offset: 0,
        })
    } else {
        None
    }
}

/// The statement of a kind whose text up to its `;` this is.
fn control_in(
    alloc: Global,
    kind: StatementKind,
    outer: bool,
    text: &[u8],
) -> Result<Option<Control>, Memory>
    ensures { IfOk result (λ c. c ≡ forms.control_in kind outer text.now) }
{
    match kind {
        StatementKind::Exec => Ok(exec_in(outer, text)),
        StatementKind::Goto => naming(alloc, StatementKind::Goto, outer, text),
        StatementKind::Call => naming(alloc, StatementKind::Call, outer, text),
        StatementKind::Next => naming(alloc, StatementKind::Next, outer, text),
        StatementKind::Hold => Ok(bare(StatementKind::Hold, outer, text)),
        StatementKind::Ret => Ok(bare(StatementKind::Ret, outer, text)),
        StatementKind::Break => Ok(bare(StatementKind::Break, outer, text)),
    }
}

/// The statement of a kind inside so many braces, with this behind its word.
fn control_at(
    alloc: Global,
    kind: StatementKind,
    depth: u64,
    behind: &[u8],
) -> Result<Option<Control>, Memory>
    requires { depth + length behind.now < 2 ^ 63 }
    ensures { IfOk result (λ c. c ≡ forms.control_at kind depth behind.now) }
{
    match up_to_semicolon(depth, behind) {
        Some(text) => control_in(alloc, kind, depth == 0, text),
        None => Ok(None),
    }
}

fn control_said(
    alloc: Global,
    kind: StatementKind,
    depth: u64,
    behind: &[u8],
) -> Result<Saying, Memory>
    requires { depth + length behind.now < 2 ^ 63 }
    ensures { IfOk result (λ s. s ≡ forms.saying_of (w.Control kind) depth behind.now) }
{
    match control_at(alloc, kind, depth, behind)? {
        Some(control) => Ok(Saying::Control(control)),
        None => Ok(Saying::Misplaced),
    }
}

/// The name in parentheses that a text begins with.
fn name_in_parentheses(text: &[u8]) -> Option<&[u8]>
    ensures { MatchOption result (forms.name_in_parentheses text.now ≡ None) (λ name. forms.name_in_parentheses text.now ≡ Some name.now) }
{
    let Some((first, rest)) = text.split_first() else {
        return None;
    };
    if *first != b'(' {
        return None;
    }
    let (word, behind) = cut_word(behind_blanks(rest));
    let Some((last, _)) = behind_blanks(behind).split_first() else {
        return None;
    };
    if *last == b')' { only_name(word) } else { None }
}

fn entry_said(alloc: Global, depth: u64, behind: &[u8]) -> Result<Saying, Memory>
    ensures { IfOk result (λ s. s ≡ forms.saying_of w.Entry depth behind.now) }
{
    let _ = depth;
    match name_in_parentheses(behind_blanks(behind)) {
        Some(name) => Ok(Saying::Entry(named(alloc, name)?)),
        None => Ok(Saying::Misplaced),
    }
}

/// What a word says inside so many braces, with this behind it.
pub fn saying_of(alloc: Global, word: CodeWord, depth: u64, behind: &[u8]) -> Result<Saying, Memory>
    requires { depth + length behind.now < 2 ^ 63 }
    ensures { IfOk result (λ s. s ≡ forms.saying_of word depth behind.now) }
{
    match word {
        CodeWord::Control(kind) => control_said(alloc, kind, depth, behind),
        CodeWord::Entry => entry_said(alloc, depth, behind),
        CodeWord::Position => Ok(Saying::Position),
        CodeWord::Character => Ok(Saying::Character),
        CodeWord::LeftOut => Ok(Saying::Misplaced),
    }
}
