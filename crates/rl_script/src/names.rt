// Tables of names, and of calls.
ghost use Rattle.std.specs.Prelude.{◌≡◌, ◌||◌, not, drop, List, ℕ, IfOk, OnOk};
ghost use Rattle.rl_replay.specs.Sessions.{has_name, is_opened, only};
ghost use Rattle.rl_script.specs.NameTables.{has, has_call, Adds, AddsCall, opens};

use indexmap::IndexSet;
use rl_replay::{Event, Line};
use rl_types::{List as Items, Name};
use std::alloc::{AllocError, Global};

/// Names, each of them once.
pub type Names<'a> = IndexSet<&'a [u8]>;

/// Calls, each of them once: a session, the name that is called in it, and which of its calls it is.
pub type Calls<'a> = IndexSet<(&'a [u8], &'a [u8], u32)>;

/// Whether a name is in a table.
pub fn has(table: &Names<'_>, name: &[u8]) -> bool
    ensures { result ≡ has table.now name.now }
{
    table.contains(name)
}

/// Puts a name into a table, and says whether it is new.
pub fn put<'a>(table: &mut Names<'a>, name: &'a [u8]) -> Result<bool, AllocError>
    ensures { IfOk result (λ is_new. (is_new ≡ not (has table.old name.now)) × Adds table.old name.now table.new) }
{
    match table.insert(name) {
        Ok(is_new) => Ok(is_new),
        Err(_) => Err(AllocError),
    }
}

/// Puts a call into a table, and says whether it is new.
pub fn put_call<'a>(
    table: &mut Calls<'a>,
    session: &'a [u8],
    name: &'a [u8],
    number: u32,
) -> Result<bool, AllocError>
    ensures { IfOk result (λ is_new. (is_new ≡ not (has_call table.old session.now name.now number)) × AddsCall table.old session.now name.now number table.new) }
{
    match table.insert((session, name, number)) {
        Ok(is_new) => Ok(is_new),
        Err(_) => Err(AllocError),
    }
}

// All names but the first.
fn behind_first(names: &Items<Name>) -> &[Name]
    ensures { result.now ≡ drop 1 names.now }
{
    match names.as_slice() {
        [_, rest @ ..] => rest,
        [] => &[],
    }
}

/// The table of all names but the first, which is empty.
pub fn names_of<'a>(alloc: Global, names: &'a Items<Name>) -> Result<Names<'a>, AllocError>
    ensures { IfOk result (λ table. (name : List ℕ) → has table name ≡ has_name (drop 1 names.now) name) }
{
    let mut table = IndexSet::new(alloc);
    for name in behind_first(names) {
        put(&mut table, name.bytes())?;
    }
    Ok(table)
}

// Puts the session that a line opens into a table.
fn put_opened<'a>(table: &mut Names<'a>, event: &'a Event) -> Result<(), AllocError>
    ensures { OnOk result ((s : List ℕ) → has table.new s ≡ (has table.old s || opens s event.now)) }
{
    match event {
        Event::Open(session, _) => {
            put(table, session.bytes())?;
            Ok(())
        }
        Event::Piece(_, _) | Event::End(_) | Event::Pick(_, _, _, _) | Event::Say(_, _, _, _) => {
            Ok(())
        }
    }
}

/// The table of the sessions that lines open.
pub fn opened_in<'a>(alloc: Global, lines: &'a [Line]) -> Result<Names<'a>, AllocError>
    ensures { IfOk result (λ table. (s : List ℕ) → has table s ≡ is_opened (only s lines.now)) }
{
    let mut table = IndexSet::new(alloc);
    for line in lines {
        put_opened(&mut table, &line.event)?;
    }
    Ok(table)
}
