// The printing of a run's lines.
ghost use Rattle.std.specs.Prelude.{◌≡◌, ℕ, [], ◌∷◌, ◌++◌, OnOk, OnErr, IfOk, IsOkAnd, decimal};
ghost use Rattle.rl_run.specs.Picks.{entry_number};
ghost use Rattle.rl_run.specs.Twin.{name_of};
ghost use Rattle.rl_replay.specs.Lines.{spaced, line_of, kind_word, reason_word, verdict_word, token_words, call_words, goal_text, pick_text, answer_word, pick_word, pick_words, present, answer_words, call_line, stop_line, end_line, left_line};

use crate::LookUps;
use itoa::Buffer;
use rl_run::{Answer, Call, CallKind, Pick, Statement, StatementKind, Stop, Verdict};
use rl_types::{ActionId, EntryId, Memory};
use std::alloc::{AllocError, Global};

fn kind_text(kind: CallKind) -> &'static [u8]
    ensures { result.now ≡ kind_word kind }
{
    match kind {
        CallKind::From => b"from",
        CallKind::Ask => b"ask",
        CallKind::Do => b"do",
        CallKind::Error => b"error",
        CallKind::To => b"to",
        CallKind::Token => b"token",
        CallKind::Eof => b"eof",
    }
}

fn reason_text(cause: &Stop) -> &'static [u8]
    ensures { result.now ≡ reason_word cause.now }
{
    match cause {
        Stop::ErrorState => b"error",
        Stop::StackFull(_) => b"stack-full",
        Stop::StackEmpty(_) => b"stack-empty",
        Stop::Back(_) => b"back",
        Stop::Stuck(_) => b"stuck",
        Stop::Overlong => b"overlong",
        Stop::PastEnd => b"past-end",
        Stop::HalfKey => b"half-key",
        Stop::Stray(_) => b"stray",
        Stop::HostStop => b"host-stop",
    }
}

fn verdict_text(verdict: Verdict) -> &'static [u8]
    ensures { result.now ≡ verdict_word verdict }
{
    match verdict {
        Verdict::Final => b"final",
        Verdict::Partial => b"partial",
        Verdict::Error => b"error",
    }
}

fn answer_text(answer: &Answer) -> &'static [u8]
    ensures { result.now ≡ answer_word answer.now }
{
    match answer {
        Answer::Yes => b"yes",
        _ => b"no",
    }
}

// A word behind a blank.
fn push_word(line: &mut Vec<u8>, word: &[u8]) -> Result<(), AllocError>
    ensures { OnOk result (line.new.items ≡ line.old.items ++ (32 ∷ word.now)) }
{
    line.push(b' ')?;
    line.extend_from_slice(word)
}

fn push_number(line: &mut Vec<u8>, number: u64) -> Result<(), AllocError>
    ensures { OnOk result (line.new.items ≡ line.old.items ++ (32 ∷ decimal number)) }
{
    push_word(line, Buffer::new().format(number).as_bytes())
}

fn push_goal(line: &mut Vec<u8>, goal: Option<i64>) -> Result<(), AllocError>
    ensures { OnOk result (line.new.items ≡ line.old.items ++ (32 ∷ goal_text goal)) }
{
    match goal {
        Some(goal) => push_word(line, Buffer::new().format(goal).as_bytes()),
        None => push_word(line, b"?"),
    }
}

fn push_pair(line: &mut Vec<u8>, word: &[u8], entry: &[u8]) -> Result<(), AllocError>
    ensures { OnOk result (line.new.items ≡ line.old.items ++ (32 ∷ word.now ++ (32 ∷ entry.now))) }
{
    push_word(line, word)?;
    push_word(line, entry)
}

fn push_statement(
    line: &mut Vec<u8>,
    kind: StatementKind,
    entry: &[u8],
    goal: Option<i64>,
) -> Result<(), AllocError>
    ensures { OnOk result (line.new.items ≡ line.old.items ++ (32 ∷ pick_text kind entry.now goal)) }
{
    match kind {
        StatementKind::Hold => push_word(line, b"hold"),
        StatementKind::Exec => {
            push_word(line, b"exec")?;
            push_goal(line, goal)
        }
        StatementKind::Goto => push_pair(line, b"goto", entry),
        StatementKind::Call => push_pair(line, b"call", entry),
        StatementKind::Ret => push_word(line, b"ret"),
        StatementKind::Next => push_pair(line, b"next", entry),
        StatementKind::Break => push_word(line, b"break"),
    }
}

fn entry_of(statement: &Statement) -> EntryId
    ensures { result.0 ≡ entry_number statement.now.entry }
{
    match statement.entry {
        Some(entry) => entry,
        None => EntryId(0),
    }
}

fn push_pick<L: LookUps>(
    line: &mut Vec<u8>,
    look_ups: &L,
    action: ActionId,
    pick: Pick,
) -> Result<(), AllocError>
    ensures { OnOk result (line.new.items ≡ line.old.items
        ++ (32 ∷ pick_word (L.machine look_ups.now).entry_name ((L.machine look_ups.now).statement action.0 pick.statement) pick)) }
{
    match look_ups.statement(action, pick.statement) {
        Some(statement) => {
            let entry = look_ups.entry_name(entry_of(&statement));
            push_statement(line, statement.kind, entry, pick.goal)
        }
        None => {
            push_word(line, b"?")?;
            line.extend_from_slice(Buffer::new().format(pick.statement).as_bytes())
        }
    }
}

fn push_picks<L: LookUps>(
    line: &mut Vec<u8>,
    look_ups: &L,
    action: ActionId,
    picks: &[Option<Pick>],
) -> Result<(), AllocError>
    ensures { OnOk result (line.new.items ≡ line.old.items ++ spaced (pick_words (L.machine look_ups.now) action.0 (present picks.now))) }
{
    for pick in picks {
        match pick {
            Some(pick) => push_pick(line, look_ups, action, *pick)?,
            None => return Ok(()),
        }
    }
    Ok(())
}

fn push_answer<L: LookUps>(
    line: &mut Vec<u8>,
    look_ups: &L,
    call: &Call,
    answer: &Answer,
) -> Result<(), AllocError>
    ensures { OnOk result (line.new.items ≡ line.old.items ++ spaced (answer_words (L.machine look_ups.now) call.now answer.now)) }
{
    match call.kind {
        CallKind::From | CallKind::To => Ok(()),
        CallKind::Ask => push_word(line, answer_text(answer)),
        CallKind::Do | CallKind::Error | CallKind::Token | CallKind::Eof => match answer {
            Answer::Picks(picks) => push_picks(line, look_ups, call.action, picks),
            Answer::Yes | Answer::No | Answer::Stop => Ok(()),
        },
    }
}

fn push_token(line: &mut Vec<u8>, call: &Call) -> Result<(), AllocError>
    ensures { OnOk result (line.new.items ≡ line.old.items ++ spaced (token_words call.now)) }
{
    match call.kind {
        CallKind::Token => {
            push_number(line, call.ts.unwrap_or(0))?;
            push_number(line, call.te.unwrap_or(0))
        }
        CallKind::From
        | CallKind::Ask
        | CallKind::Do
        | CallKind::Error
        | CallKind::To
        | CallKind::Eof => Ok(()),
    }
}

fn push_call(line: &mut Vec<u8>, name: &[u8], call: &Call) -> Result<(), AllocError>
    ensures { OnOk result (line.new.items ≡ line.old.items ++ spaced (call_words name.now call.now)) }
{
    push_word(line, kind_text(call.kind))?;
    push_word(line, name)?;
    push_number(line, call.at)?;
    push_token(line, call)
}

fn call_text<L: LookUps>(
    alloc: Global,
    look_ups: &L,
    session: &[u8],
    call: &Call,
    answer: &Answer,
) -> Result<Vec<u8>, AllocError>
    ensures { IfOk result (λ text. text.items ≡ call_line (L.machine look_ups.now) session.now call.now answer.now) }
{
    let mut line = Vec::from_slice(alloc, session)?;
    push_call(&mut line, look_ups.called_name(call), call)?;
    push_answer(&mut line, look_ups, call, answer)?;
    line.push(b'\n')?;
    Ok(line)
}

// A line of a word, what the word tells, and a position.
fn text_of(
    alloc: Global,
    session: &[u8],
    word: &[u8],
    told: &[u8],
    next: u64,
) -> Result<Vec<u8>, AllocError>
    ensures { IfOk result (λ text. text.items ≡ line_of session.now (word.now ∷ told.now ∷ decimal next ∷ [])) }
{
    let mut line = Vec::from_slice(alloc, session)?;
    push_word(&mut line, word)?;
    push_word(&mut line, told)?;
    push_number(&mut line, next)?;
    line.push(b'\n')?;
    Ok(line)
}

// A line that was made goes to the end, whole or not at all.
fn push_line(out: &mut Vec<u8>, line: Result<Vec<u8>, AllocError>) -> Result<(), Memory>
    ensures line { OnOk result (IsOkAnd line (λ text. out.new.items ≡ out.old.items ++ text.items)) }
    ensures same { OnErr result (out.new.items ≡ out.old.items) }
{
    match line {
        Ok(text) => out.extend_from_slice(&text).map_err(|_| Memory),
        Err(_) => Err(Memory),
    }
}

/// Adds the line of a session's call with its answer: `S from NAME AT`, `S to NAME AT`, `S ask NAME AT yes` or `no`,
/// `S do NAME AT PICKS`, and the same for `error` and `eof`, `S token NAME AT TS TE PICKS`. AT is the turn's position,
/// in characters from 0, and at the end of input the input's length; PICKS are the picks of the answer, in this
/// profile's words. `Memory` leaves `out` as it was.
pub fn push_call_line<L: LookUps>(
    alloc: Global,
    out: &mut Vec<u8>,
    look_ups: &L,
    session: &[u8],
    call: &Call,
    answer: &Answer,
) -> Result<(), Memory>
    ensures line { OnOk result (out.new.items ≡ out.old.items ++ call_line (L.machine look_ups.now) session.now call.now answer.now) }
    ensures same { OnErr result (out.new.items ≡ out.old.items) }
{
    push_line(out, call_text(alloc, look_ups, session, call, answer))
}

/// Adds the line of a session that stops, `S stop REASON NEXT`. NEXT is the session's next position, in characters.
/// `Memory` leaves `out` as it was.
pub fn push_stop_line(
    alloc: Global,
    out: &mut Vec<u8>,
    session: &[u8],
    cause: &Stop,
    next: u64,
) -> Result<(), Memory>
    ensures line { OnOk result (out.new.items ≡ out.old.items ++ stop_line session.now cause.now next) }
    ensures same { OnErr result (out.new.items ≡ out.old.items) }
{
    push_line(
        out,
        text_of(alloc, session, b"stop", reason_text(cause), next),
    )
}

/// Adds the line of a session that is ended, `S end VERDICT NEXT`. NEXT is the session's next position, in characters.
/// `Memory` leaves `out` as it was.
pub fn push_end_line(
    alloc: Global,
    out: &mut Vec<u8>,
    session: &[u8],
    verdict: Verdict,
    next: u64,
) -> Result<(), Memory>
    ensures line { OnOk result (out.new.items ≡ out.old.items ++ end_line session.now verdict next) }
    ensures same { OnErr result (out.new.items ≡ out.old.items) }
{
    push_line(
        out,
        text_of(alloc, session, b"end", verdict_text(verdict), next),
    )
}

/// Adds the line of a session that is live after the last line of the script, `S left VERDICT NEXT`. NEXT is the
/// session's next position, in characters. `Memory` leaves `out` as it was.
pub fn push_left_line(
    alloc: Global,
    out: &mut Vec<u8>,
    session: &[u8],
    verdict: Verdict,
    next: u64,
) -> Result<(), Memory>
    ensures line { OnOk result (out.new.items ≡ out.old.items ++ left_line session.now verdict next) }
    ensures same { OnErr result (out.new.items ≡ out.old.items) }
{
    push_line(
        out,
        text_of(alloc, session, b"left", verdict_text(verdict), next),
    )
}
