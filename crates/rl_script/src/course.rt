// What is known of a script and of tables as a whole, and of the lines past; the faults of one more line.
ghost use Rattle.std.specs.Prelude.{◌≡◌, not, true, [], Some, None, IfOk, MatchResult};
ghost use Rattle.std.specs.Option.{option_or};
ghost use Rattle.rl_replay.specs.declared.script.Event.TheVariants.{Open, End, Pick, Say};
ghost use Rattle.rl_replay.specs.declared.script.ScriptFault.TheVariants.{NoSession, NoName};
ghost use Rattle.rl_replay.specs.Sessions.{if_so};
ghost use Rattle.rl_script.specs.Course.{Knows, Tells, is_entry, is_live_in, fault_in, Notes};
ghost use Rattle.rl_script.specs.Faults.{IsDue};
ghost use Rattle.rl_script.specs.NameTables.{has};
ghost use Rattle.rl_script.specs.TableNames.{names_in};

use crate::names::{Calls, Names, has, names_of, opened_in, put, put_call};
use indexmap::IndexSet;
use rl_arrays::Arrays;
use rl_replay::{Event, Line, ScriptFault};
use rl_types::Name;
use std::alloc::{AllocError, Global};

/// At most so many sessions are live.
const MOST_LIVE: u64 = 1024;

/// What is known of a script and of tables as a whole.
#[derive(Drop)]
pub struct Known<'a> {
    /// The sessions that any line opens.
    pub opened: Names<'a>,
    /// The names that the tables have.
    pub entries: Names<'a>,
    pub actions: Names<'a>,
    pub conditions: Names<'a>,
}

/// What is known of the lines past.
#[derive(Drop)]
pub struct Course<'a> {
    /// The sessions that were opened.
    pub opened: Names<'a>,
    /// Those of them that were ended.
    pub ended: Names<'a>,
    /// How many are live.
    pub live: u64,
    /// The calls of actions that were answered.
    pub picks: Calls<'a>,
    /// The questions that were answered.
    pub says: Calls<'a>,
}

fn is_entry(known: &Known<'_>, entry: &Option<Name>) -> bool
    ensures { result ≡ is_entry known.now entry.now }
{
    match entry {
        Some(entry) => has(&known.entries, entry.bytes()),
        None => true,
    }
}

fn is_live(course: &Course<'_>, session: &[u8]) -> bool
    ensures { result ≡ is_live_in course.now session.now }
{
    has(&course.opened, session) && !has(&course.ended, session)
}

// A session opens.
fn open<'a>(
    known: &Known<'_>,
    course: &mut Course<'a>,
    line: u64,
    session: &'a [u8],
    entry: &Option<Name>,
) -> Result<(), ScriptFault>
    ensures { MatchResult result
        (λ _. (fault_in known.now course.old line (Open session.now entry.now) ≡ None) × Notes (Open session.now entry.now) course.old course.new)
        (IsDue (fault_in known.now course.old line (Open session.now entry.now))) }
{
    let Ok(is_unopened) = put(&mut course.opened, session) else {
        return Err(ScriptFault::Memory);
    };
    if !is_unopened {
        return Err(ScriptFault::Twice { line });
    }
    if !is_entry(known, entry) {
        return Err(ScriptFault::NoEntry { line });
    }
    if MOST_LIVE <= course.live {
        return Err(ScriptFault::Full { line });
    }
    course.live += 1;
    Ok(())
}

// A session that is fed or ended has to be live.
fn check_live(course: &Course<'_>, line: u64, session: &[u8]) -> Result<(), ScriptFault>
    ensures { MatchResult result
        (λ _. if_so (not (is_live_in course.now session.now)) (NoSession line) ≡ None)
        (IsDue (if_so (not (is_live_in course.now session.now)) (NoSession line))) }
{
    if is_live(course, session) {
        Ok(())
    } else {
        Err(ScriptFault::NoSession { line })
    }
}

// A session ends.
fn end<'a>(course: &mut Course<'a>, line: u64, session: &'a [u8]) -> Result<(), ScriptFault>
    ensures { MatchResult result
        (λ _. (if_so (not (is_live_in course.old session.now)) (NoSession line) ≡ None) × Notes (End session.now) course.old course.new)
        (IsDue (if_so (not (is_live_in course.old session.now)) (NoSession line))) }
{
    check_live(course, line, session)?;
    let Ok(_) = put(&mut course.ended, session) else {
        return Err(ScriptFault::Memory);
    };
    course.live = course.live.saturating_sub(1);
    Ok(())
}

// The names of an answer: some line opens the session, and the tables have the name of the call.
fn check_names(
    opened: &Names<'_>,
    names: &Names<'_>,
    line: u64,
    session: &[u8],
    name: &[u8],
) -> Result<(), ScriptFault>
    ensures { MatchResult result
        (λ _. option_or (if_so (not (has opened.now session.now)) (NoSession line)) (if_so (not (has names.now name.now)) (NoName line)) ≡ None)
        (IsDue (option_or (if_so (not (has opened.now session.now)) (NoSession line)) (if_so (not (has names.now name.now)) (NoName line)))) }
{
    if !has(opened, session) {
        return Err(ScriptFault::NoSession { line });
    }
    if !has(names, name) {
        return Err(ScriptFault::NoName { line });
    }
    Ok(())
}

// A call of an action is answered.
fn pick<'a>(
    known: &Known<'_>,
    course: &mut Course<'a>,
    line: u64,
    session: &'a [u8],
    action: &'a [u8],
    count: u32,
) -> Result<(), ScriptFault>
    ensures { MatchResult result
        (λ _. (fault_in known.now course.old line (Pick session.now action.now count []) ≡ None) × Notes (Pick session.now action.now count []) course.old course.new)
        (IsDue (fault_in known.now course.old line (Pick session.now action.now count []))) }
{
    let Ok(is_new) = put_call(&mut course.picks, session, action, count) else {
        return Err(ScriptFault::Memory);
    };
    if !is_new {
        return Err(ScriptFault::Twice { line });
    }
    check_names(&known.opened, &known.actions, line, session, action)
}

// A question is answered.
fn say<'a>(
    known: &Known<'_>,
    course: &mut Course<'a>,
    line: u64,
    session: &'a [u8],
    condition: &'a [u8],
    count: u32,
) -> Result<(), ScriptFault>
    ensures { MatchResult result
        (λ _. (fault_in known.now course.old line (Say session.now condition.now count true) ≡ None) × Notes (Say session.now condition.now count true) course.old course.new)
        (IsDue (fault_in known.now course.old line (Say session.now condition.now count true))) }
{
    let Ok(is_new) = put_call(&mut course.says, session, condition, count) else {
        return Err(ScriptFault::Memory);
    };
    if !is_new {
        return Err(ScriptFault::Twice { line });
    }
    check_names(&known.opened, &known.conditions, line, session, condition)
}

/// Takes one more line, or tells its fault.
pub fn take<'a>(
    known: &Known<'_>,
    course: &mut Course<'a>,
    line: &'a Line,
) -> Result<(), ScriptFault>
    ensures { MatchResult result
        (λ _. (fault_in known.now course.old line.now.number line.now.event ≡ None) × Notes line.now.event course.old course.new)
        (IsDue (fault_in known.now course.old line.now.number line.now.event)) }
{
    let number = line.number;
    match &line.event {
        Event::Open(session, entry) => open(known, course, number, session.bytes(), entry),
        Event::Piece(session, _) => check_live(course, number, session.bytes()),
        Event::End(session) => end(course, number, session.bytes()),
        Event::Pick(session, action, count, _) => {
            pick(
                known,
                course,
                number,
                session.bytes(),
                action.bytes(),
                *count,
            )
        }
        Event::Say(session, condition, count, _) => say(
            known,
            course,
            number,
            session.bytes(),
            condition.bytes(),
            *count,
        ),
    }
}

/// What is known of a script and of tables as a whole.
pub fn known_of<'a>(
    alloc: Global,
    lines: &'a [Line],
    arrays: &'a Arrays,
) -> Result<Known<'a>, AllocError>
    ensures { IfOk result (Knows (names_in arrays.now) lines.now) }
{
    let opened = opened_in(alloc, lines)?;
    let entries = names_of(alloc, &arrays.entry_names)?;
    let actions = names_of(alloc, &arrays.action_names)?;
    let conditions = names_of(alloc, &arrays.cond_names)?;
    Ok(Known {
        opened,
        entries,
        actions,
        conditions,
    })
}

/// What is known before the first line.
pub fn before_lines<'a>(alloc: Global) -> Course<'a>
    ensures { Tells [] result }
{
    Course {
        opened: IndexSet::new(alloc),
        ended: IndexSet::new(alloc),
        live: 0,
        picks: IndexSet::new(alloc),
        says: IndexSet::new(alloc),
    }
}
