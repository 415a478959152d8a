// Two machines, each run over a text that comes in two pieces.
ghost use Rattle.std.specs.Prelude.{◌<◌, length};

use rl_run::{Answer, Call, CallKind, Outcome, Settings, Stop, Verdict};
use rl_runner::Runner;
use rl_tables::{Arrays, Tables};
use rl_types::{List, Memory, Name};
use std::alloc::{AllocError, Global};
use std::test::Fail;

/// The arrays of numbers of `'ab' $x`, in the order of a data section.
const WORD: [&[i64]; 24] = [
    &[0, 1, 1],
    &[0, 0, 1, 2],
    &[97, 98, 0],
    &[0, 1, 1, 0],
    &[0, 0, 0, 0],
    &[0, 0, 1, 2],
    &[0, 0, 0],
    &[0, 1, 0],
    &[2, 3, 0],
    &[1, 1, 0],
    &[0, 0, 0, 0],
    &[0, 0, 0, 0],
    &[0, 0, 0, 0],
    &[0, 0, 0, 0],
    &[0, 0, 0, 0],
    &[0, 0, 0, 0],
    &[0, 0, 0, 0],
    &[0, 1],
    &[0, 0],
    &[0],
    &[0],
    &[0],
    &[0],
    &[0, 1],
];

/// The same of `|* 'a' => A; 'aab' => B; *|`: state 1 is behind `a`, 2 behind `aa`, 3 behind `aab`, and 4 is the start.
const SCANNER: [&[i64]; 24] = [
    &[0, 1, 1, 1, 2],
    &[0, 0, 1, 2, 2],
    &[97, 98, 97, 0],
    &[0, 1, 1, 0, 1],
    &[0, 0, 0, 0, 0],
    &[0, 0, 1, 2, 2],
    &[0, 0, 0, 0],
    &[0, 1, 2, 0],
    &[2, 3, 1, 0],
    &[0, 0, 0, 0],
    &[0, 0, 0, 0, 0],
    &[0, 0, 0, 0, 0],
    &[0, 0, 0, 0, 0],
    &[0, 0, 0, 0, 0],
    &[0, 1, 0, 3, 0],
    &[0, 3, 2, 4, 1],
    &[0, 4, 4, 4, 4],
    &[0, 1, 1],
    &[0, 0, 0],
    &[0],
    &[0],
    &[0],
    &[0],
    &[0, 4],
];

fn name_of(alloc: Global, text: &str) -> Result<Name, AllocError> {
    Ok(Name::new(Vec::from_slice(alloc, text.as_bytes())?))
}

fn names(alloc: Global, texts: &[&str]) -> Result<List<Name>, AllocError> {
    let mut all = List::new(alloc);
    for text in texts {
        all.push(name_of(alloc, text)?)?;
    }
    Ok(all)
}

/// These lists of numbers, the last first.
fn lists_of(alloc: Global, parts: &[&[i64]]) -> Result<Vec<List<i64>>, AllocError> {
    let mut lists = Vec::new(alloc);
    for part in parts.iter().rev() {
        lists.push(List::from_slice(alloc, part)?)?;
    }
    Ok(lists)
}

/// The next of them.
fn next(alloc: Global, lists: &mut Vec<List<i64>>) -> List<i64> {
    match lists.pop() {
        Some(list) => list,
        None => List::new(alloc),
    }
}

/// The names of a machine's arrays.
#[derive(Drop)]
struct NameLists {
    machine: Name,
    actions: List<Name>,
    conditions: List<Name>,
    entries: List<Name>,
}

fn names_of(alloc: Global, actions: &[&str]) -> Result<NameLists, AllocError> {
    Ok(NameLists {
        machine: name_of(alloc, "m")?,
        actions: names(alloc, actions)?,
        conditions: names(alloc, &[""])?,
        entries: names(alloc, &["", "main"])?,
    })
}

/// The arrays, put together.
fn assembled(
    alloc: Global,
    start: i64,
    first_final: i64,
    alphabet: i64,
    names: NameLists,
    mut lists: Vec<List<i64>>,
) -> Arrays {
    let lists = &mut lists;
    Arrays {
        version: 1,
        name: names.machine,
        start,
        first_final,
        alphabet,
        actions: next(alloc, lists),
        key_offsets: next(alloc, lists),
        trans_keys: next(alloc, lists),
        single_lengths: next(alloc, lists),
        range_lengths: next(alloc, lists),
        cell_offsets: next(alloc, lists),
        cell_uses: List::new(alloc),
        cell_asks: next(alloc, lists),
        cell_entries: next(alloc, lists),
        trans_targs: next(alloc, lists),
        trans_lists: next(alloc, lists),
        from_lists: next(alloc, lists),
        to_lists: next(alloc, lists),
        eof_lists: next(alloc, lists),
        error_lists: next(alloc, lists),
        accept_lists: next(alloc, lists),
        state_kinds: next(alloc, lists),
        homes: next(alloc, lists),
        action_names: names.actions,
        stmt_firsts: next(alloc, lists),
        stmt_counts: next(alloc, lists),
        stmt_kinds: next(alloc, lists),
        stmt_outer: next(alloc, lists),
        stmt_args: next(alloc, lists),
        stmt_bases: next(alloc, lists),
        cond_names: names.conditions,
        entry_names: names.entries,
        entry_states: next(alloc, lists),
    }
}

/// The alphabet's number is 0 for `char`, 2 for `short`.
pub fn word(alloc: Global, alphabet: i64) -> Result<Arrays, AllocError> {
    let names = names_of(alloc, &["", "x"])?;
    let lists = lists_of(alloc, &WORD)?;
    Ok(assembled(alloc, 1, 3, alphabet, names, lists))
}

pub fn scanner(alloc: Global) -> Result<Arrays, AllocError> {
    let names = names_of(alloc, &["", "A", "B"])?;
    let lists = lists_of(alloc, &SCANNER)?;
    Ok(assembled(alloc, 4, 4, 0, names, lists))
}

pub const SETTINGS: Settings = Settings {
    stack: 64,
    look: 8,
    token_max: 65536,
};

/// What is expected of a call: its kind, its action's number, its position and its token's ends.
#[derive(Clone, Copy, Debug, PartialEq, Eq)]
struct CallView {
    kind: CallKind,
    action: u32,
    at: u64,
    ts: Option<u64>,
    te: Option<u64>,
}

fn shown(call: &Call) -> CallView {
    CallView {
        kind: call.kind,
        action: call.action.0,
        at: call.at,
        ts: call.ts,
        te: call.te,
    }
}

fn step(action: u32, at: u64) -> CallView {
    CallView {
        kind: CallKind::Do,
        action,
        at,
        ts: None,
        te: None,
    }
}

fn token(action: u32, at: u64, ts: u64, te: u64) -> CallView {
    CallView {
        kind: CallKind::Token,
        action,
        at,
        ts: Some(ts),
        te: Some(te),
    }
}

/// What is told of a session.
#[derive(Drop)]
struct Told {
    calls: Vec<CallView>,
    first: Outcome,
    second: Outcome,
    last: Outcome,
    next: u64,
    verdict: Verdict,
}

/// A session over a text, of which a part comes first, with a host that always answers the same.
fn told_of(
    alloc: Global,
    tables: &Tables,
    answer: Answer,
    part: &[u8],
    text: &[u8],
) -> Result<Told, Memory>
    requires part { length part.now < 8 }
    requires text { length text.now < 8 }
{
    let mut runner = Runner::new(alloc, tables, tables.start_entry(), SETTINGS)?;
    let mut calls = Vec::new(alloc);
    let mut host = |call: Call| -> Answer {
        let _ = calls.push(shown(&call));
        answer
    };
    let first = runner.feed(&mut host, 0, part);
    let second = runner.feed(&mut host, 0, text);
    let last = runner.end(&mut host, 0, text);
    Ok(Told {
        calls,
        first,
        second,
        last,
        next: runner.next(),
        verdict: runner.verdict(),
    })
}

/// The same over tables of these arrays; None where they are refused, or memory is wanting.
fn told_by(
    alloc: Global,
    arrays: Result<Arrays, AllocError>,
    answer: Answer,
    part: &[u8],
    text: &[u8],
) -> Option<Told>
    requires part { length part.now < 8 }
    requires text { length text.now < 8 }
{
    let Ok(arrays) = arrays else {
        return None;
    };
    let Ok(tables) = Tables::new(arrays) else {
        return None;
    };
    told_of(alloc, &tables, answer, part, text).ok()
}

#[test]
fn steps_a_word(rt: HostRuntime) -> Result<(), Fail> {
    let alloc = rt.alloc();
    let told = told_by(alloc, word(alloc, 0), Answer::Yes, b"a", b"ab").ok_or("no tables")?;
    assert_eq!(rt; told.calls.as_slice(), [step(1, 0), step(1, 1)].as_slice());
    assert_eq!(rt; told.first, Outcome::Wants);
    assert_eq!(rt; told.second, Outcome::Wants);
    assert_eq!(rt; told.last, Outcome::Ended);
    assert_eq!(rt; told.next, 2);
    assert_eq!(rt; told.verdict, Verdict::Final);
    Ok(())
}

#[test]
fn delivers_tokens(rt: HostRuntime) -> Result<(), Fail> {
    let alloc = rt.alloc();
    let told = told_by(alloc, scanner(alloc), Answer::Yes, b"aa", b"aaac").ok_or("no tables")?;
    let expected = [token(1, 2, 0, 1), token(1, 3, 1, 2), token(1, 3, 2, 3)];
    assert_eq!(rt; told.calls.as_slice(), expected.as_slice());
    assert_eq!(rt; told.first, Outcome::Wants);
    assert_eq!(rt; told.second, Outcome::Stopped(Stop::ErrorState));
    assert_eq!(rt; told.last, Outcome::Stopped(Stop::ErrorState));
    assert_eq!(rt; told.next, 3);
    assert_eq!(rt; told.verdict, Verdict::Error);
    Ok(())
}

#[test]
fn stops_at_half_a_character(rt: HostRuntime) -> Result<(), Fail> {
    let alloc = rt.alloc();
    let told = told_by(alloc, word(alloc, 2), Answer::Yes, b"a", b"a\0b").ok_or("no tables")?;
    assert_eq!(rt; told.calls.as_slice(), [step(1, 0)].as_slice());
    assert_eq!(rt; told.first, Outcome::Wants);
    assert_eq!(rt; told.second, Outcome::Wants);
    assert_eq!(rt; told.last, Outcome::Stopped(Stop::HalfKey));
    assert_eq!(rt; told.next, 1);
    assert_eq!(rt; told.verdict, Verdict::Error);
    Ok(())
}
