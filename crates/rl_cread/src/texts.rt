//! The lines of a text, and where a section begins.
ghost use Rattle.std.specs.Prelude.{◌≡◌, ◌++◌, ◌==◌, ℕ, Bool, List, None, map, drop, IfOk, IfSome, MatchOption, IsSomeAnd, Some, IsTrue, ◌↔◌, slice_get};
ghost use Rattle.std.specs.List.{slice_split};
ghost use Rattle.std.specs.Option.{option_copied};
ghost use Rattle.rl_cread.specs.Sections as section;
ghost use Rattle.rl_cread.specs.Sections.{IsFirst, Marks};
ghost use Rattle.rl_cread.specs.Found.{front_text, IsFound};

use rl_arrays::is_name;
use std::alloc::{AllocError, Global};

/// What stands between the bytes that are this one.
pub(crate) fn parts(alloc: Global, text: &[u8], at: u8) -> Result<Vec<&[u8]>, AllocError>
    ensures { IfOk result (λ v. map (λ part. part.now) v.items ≡ slice_split (λ b. b == at) text.now) }
{
    text.split(|b| *b == at).collect(alloc)
}

/// The lines of a text, without their newlines.
pub(crate) fn lines_of(alloc: Global, text: &[u8]) -> Result<Vec<&[u8]>, AllocError>
    ensures { IfOk result (λ v. map (λ line. line.now) v.items ≡ section.lines_of text.now) }
{
    let mut lines = parts(alloc, text, 10)?;
    let _behind = lines.pop();
    Ok(lines)
}

/// What stands behind a text.
pub(crate) fn behind<'a>(text: &'a [u8], front: &[u8]) -> Option<&'a [u8]>
    ensures { MatchOption result ((rest : List ℕ) → text.now ≡ front.now ++ rest → ⊥) (λ rest. text.now ≡ front.now ++ rest.now) }
{
    text.strip_prefix(front)
}

/// What stands between two texts.
pub(crate) fn between<'a>(text: &'a [u8], front: &[u8], back: &[u8]) -> Option<&'a [u8]>
    ensures { MatchOption result ((mid : List ℕ) → text.now ≡ front.now ++ (mid ++ back.now) → ⊥) (λ mid. text.now ≡ front.now ++ (mid.now ++ back.now)) }
{
    match text.strip_prefix(front) {
        Some(rest) => rest.strip_suffix(back),
        None => None,
    }
}

/// What stands before the name of a section in its first line.
fn front_text(shared: bool) -> &'static [u8]
    ensures { result.now ≡ front_text shared }
{
    if shared {
        b"/* rl-data 2 "
    } else {
        b"/* rl-data 1 "
    }
}

/// The name of the section that a line begins, where its keys share cells, or where they do not.
fn name_in(line: &[u8], shared: bool) -> Option<&[u8]>
    ensures { MatchOption result ((name : List ℕ) → Marks None line.now shared name → ⊥) (λ name. Marks None line.now shared name.now) }
{
    match between(line, front_text(shared), b" */") {
        Some(name) => { if is_name(name) { Some(name) } else { None } }
        None => None,
    }
}

/// Whether the keys of the section that a line begins share cells, and its name.
fn mark_in(line: &[u8]) -> Option<(bool, &[u8])>
    ensures { MatchOption result ((shared : Bool) (name : List ℕ) → Marks None line.now shared name → ⊥) (λ mark. Marks None line.now mark.0 mark.1.now) }
{
    match name_in(line, true) {
        Some(name) => Some((true, name)),
        None => match name_in(line, false) {
            Some(name) => Some((false, name)),
            None => None,
        },
    }
}

pub(crate) fn is_same(text: &[u8], other: &[u8]) -> bool
    ensures { IsTrue result ↔ (text.now ≡ other.now) }
{
    text == other
}

/// The same, of the machine that is sought.
fn sought_in<'a>(machine: Option<&[u8]>, line: &'a [u8]) -> Option<(bool, &'a [u8])>
    ensures { MatchOption result
        ((shared : Bool) (name : List ℕ) → Marks (option_copied machine.entry) line.now shared name → ⊥)
        (λ mark. Marks (option_copied machine.entry) line.now mark.0 mark.1.now) }
{
    match mark_in(line) {
        Some((shared, name)) => match machine {
            None => Some((shared, name)),
            Some(word) => {
                if is_same(word, name) {
                    Some((shared, name))
                } else {
                    None
                }
            }
        },
        None => None,
    }
}

/// A line of these, if there is one.
pub(crate) fn line_at<'a>(lines: &[&'a [u8]], i: usize) -> Option<&'a [u8]>
    ensures { MatchOption result (slice_get (map (λ line. line.now) lines.now) i ≡ None) (λ line. slice_get (map (λ line. line.now) lines.now) i ≡ Some line.now) }
{
    if i < lines.len() {
        Some(lines[i])
    } else {
        None
    }
}

/// The lines from an index on.
pub(crate) fn lines_from<'l, 'a>(lines: &'l [&'a [u8]], from: usize) -> &'l [&'a [u8]]
    ensures { map (λ line. line.now) result.now ≡ drop from (map (λ line. line.now) lines.now) }
{
    if from <= lines.len() {
        &lines[from..]
    } else {
        &[]
    }
}

/// Whether the keys of the section that begins at a line share cells, and its name.
fn section_at<'a>(machine: Option<&[u8]>, lines: &[&'a [u8]], i: usize) -> Option<(bool, &'a [u8])>
    ensures { MatchOption result
        (IfSome (slice_get (map (λ line. line.now) lines.now) i) (λ line. IsFirst (option_copied machine.entry) line → ⊥))
        (λ mark. IsSomeAnd (slice_get (map (λ line. line.now) lines.now) i) (λ line. Marks (option_copied machine.entry) line mark.0 mark.1.now)) }
{
    match line_at(lines, i) {
        Some(line) => sought_in(machine, line),
        None => None,
    }
}

/// The index of the line at which the first section begins, whether its keys share cells, and its name.
pub(crate) fn first_section<'a>(
    machine: Option<&[u8]>,
    lines: &[&'a [u8]],
) -> Option<(usize, bool, &'a [u8])>
    ensures { MatchOption result
        ((k : ℕ) → IfSome (slice_get (map (λ line. line.now) lines.now) k) (λ line. IsFirst (option_copied machine.entry) line → ⊥))
        (λ r. IsFound (option_copied machine.entry) (map (λ line. line.now) lines.now) r.0 r.1 r.2.now) }
{
    for i in 0..lines.len() {
        if let Some((shared, name)) = section_at(machine, lines, i) {
            return Some((i, shared, name));
        }
    }
    None
}
