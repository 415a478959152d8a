// Whether code is read as statements.
ghost use Rattle.std.specs.Prelude.{◌≡◌, ◌+◌, ◌↔◌, IsTrue, IfOk, List, ◌∷◌, not, is_some, option_and_then, MatchOption, None, Some, position};
ghost use Rattle.std.specs.List.{list_all};
ghost use Rattle.std.specs.Str.{bytes_eq};
ghost use Rattle.rl_code.specs.Reading as reading;
ghost use Rattle.rl_code.specs.Reading.{IsReadAs};
ghost use Rattle.rl_statements.specs.Entries.{texts};
ghost use Rattle.rl_code.specs.declared.said.Said as value;
ghost use Rattle.rl_statements.specs.Said.{IsSaid, AreSaid};

use crate::block::is_block;
use crate::said::{control_of, entry_of, is_misplaced};
use crate::walk::read_code;
use indexmap::IndexSet;
use rl_code::{Control, Said};
use rl_run::{GoalBase, Statement, StatementKind};
use rl_types::{EntryId, Memory, Name};
use std::alloc::Global;

/// The statement, with the number of the entry that it names, and `None` where it names none.
pub fn statement_of(control: &Control, entry: Option<EntryId>) -> Statement
    ensures { result ≡ record { kind = control.now.kind; outer = control.now.outer; entry = entry; base = control.now.base; offset = control.now.offset } }
{
    Statement {
        kind: control.kind,
        outer: control.outer,
        entry,
        base: control.base,
        offset: control.offset,
    }
}

/// The place of an entry in the table, from 0.
fn index_of(entries: &IndexSet<&[u8]>, name: &[u8]) -> Option<usize>
    ensures { result ≡ position (bytes_eq name.now) (texts entries.now) }
{
    entries.get_index_of(name)
}

fn is_entry(entries: &IndexSet<&[u8]>, name: &[u8]) -> bool
    ensures { result ≡ is_some (reading.entry_named (texts entries.now) name.now) }
{
    match index_of(entries, name) {
        Some(_) => true,
        None => false,
    }
}

/// Whether a word names no entry, or one of these.
fn names_one_of(entries: &IndexSet<&[u8]>, said: &Said) -> bool
    ensures { result ≡ reading.names_one_of (texts entries.now) said.now }
{
    match entry_of(said) {
        Some(name) => is_entry(entries, name),
        None => true,
    }
}

/// Whether this is the number of the entry at a place.
fn is_at(entry: EntryId, index: usize) -> bool
    ensures { IsTrue result ↔ entry ≡ record { 0 = index + 1 } }
{
    u128::from(entry.0) == index as u128 + 1
}

/// Whether this is the number of the entry of a name.
fn is_number_of(entries: &IndexSet<&[u8]>, name: &[u8], entry: Option<EntryId>) -> bool
    ensures { IsTrue result ↔ entry ≡ reading.entry_named (texts entries.now) name.now }
{
    match index_of(entries, name) {
        Some(index) => match entry {
            Some(entry) => is_at(entry, index),
            None => false,
        },
        None => match entry {
            Some(_) => false,
            None => true,
        },
    }
}

/// Whether this is the number of the entry that is named, where one is.
fn is_target(entries: &IndexSet<&[u8]>, target: &Option<Name>, entry: Option<EntryId>) -> bool
    ensures { IsTrue result ↔ entry ≡ option_and_then (reading.entry_named (texts entries.now)) target.now }
{
    match target {
        Some(name) => is_number_of(entries, name.bytes(), entry),
        None => match entry {
            Some(_) => false,
            None => true,
        },
    }
}

fn is_kind(kind: StatementKind, other: StatementKind) -> bool
    ensures { IsTrue result ↔ kind ≡ other }
{
    kind == other
}

fn is_base(base: GoalBase, other: GoalBase) -> bool
    ensures { IsTrue result ↔ base ≡ other }
{
    base == other
}

fn is_offset(offset: i64, other: i64) -> bool
    ensures { IsTrue result ↔ offset ≡ other }
{
    offset == other
}

fn is_mark(mark: bool, other: bool) -> bool
    ensures { IsTrue result ↔ mark ≡ other }
{
    mark == other
}

/// Whether a statement is that of this control statement.
fn is_statement(entries: &IndexSet<&[u8]>, control: &Control, statement: Statement) -> bool
    ensures { IsTrue result ↔ statement ≡ reading.statement_of (texts entries.now) control.now }
{
    if !is_kind(statement.kind, control.kind) {
        return false;
    }
    if !is_mark(statement.outer, control.outer) {
        return false;
    }
    if !is_base(statement.base, control.base) {
        return false;
    }
    if !is_offset(statement.offset, control.offset) {
        return false;
    }
    is_target(entries, &control.target, statement.entry)
}

fn are_formed(said: &[Said]) -> bool
    ensures { result ≡ list_all (λ s. not (reading.is_misplaced s)) said.now }
{
    said.iter().all(|s| !is_misplaced(s))
}

fn are_named(entries: &IndexSet<&[u8]>, said: &[Said]) -> bool
    ensures { result ≡ list_all (λ s. reading.names_one_of (texts entries.now) s) said.now }
{
    said.iter().all(|s| names_one_of(entries, s))
}

#[tactic(auto, using(crate::proofs::ReadLaws::says_none, crate::proofs::ReadLaws::says_one, crate::proofs::ReadLaws::says_more, crate::proofs::ReadLaws::says_other))]
/// What is left of statements behind those that a word says, and `None` where they do not begin with these.
fn left_behind<'a>(
    entries: &IndexSet<&[u8]>,
    said: &Said,
    statements: &'a [Statement],
) -> Option<&'a [Statement]>
    ensures { MatchOption result ((more : List value.Said) → IsSaid (texts entries.now) (said.now ∷ more) statements.now → ⊥) (λ left. (more : List value.Said) → IsSaid (texts entries.now) (said.now ∷ more) statements.now ↔ IsSaid (texts entries.now) more left.now) }
{
    match control_of(said) {
        Some(control) => match statements {
            [] => None,
            [first, behind @ ..] => {
                if is_statement(entries, control, *first) {
                    Some(behind)
                } else {
                    None
                }
            }
        },
        None => Some(statements),
    }
}

/// Whether these are the statements that are said.
fn are_statements(entries: &IndexSet<&[u8]>, said: &[Said], statements: &[Statement]) -> bool
    ensures { IsTrue result ↔ IsSaid (texts entries.now) said.now statements.now }
{
    let mut rest = statements;
    for s in said {
        match left_behind(entries, s, rest) {
            Some(left) => rest = left,
            None => return false,
        }
    }
    rest.is_empty()
}

/// Whether each word that is said has its form, and they are these statements.
fn are_said(entries: &IndexSet<&[u8]>, said: &[Said], statements: &[Statement]) -> bool
    ensures { IsTrue result ↔ AreSaid (texts entries.now) said.now statements.now }
{
    if !are_formed(said) {
        return false;
    }
    if !are_named(entries, said) {
        return false;
    }
    are_statements(entries, said, statements)
}

/// Whether code is read as these statements, among the entries of a table: it is a block of C in which each word has its form, each name is
/// that of an entry, and these are its statements, in text order. An `Err` is want of memory.
pub fn is_read_as(
    alloc: Global,
    entries: &IndexSet<&[u8]>,
    code: &[u8],
    statements: &[Statement],
) -> Result<bool, Memory>
    ensures { IfOk result (λ b. IsTrue b ↔ IsReadAs (texts entries.now) code.now statements.now) }
{
    if !is_block(code) {
        return Ok(false);
    }
    let said = read_code(alloc, code)?;
    Ok(are_said(entries, said.as_slice(), statements))
}
